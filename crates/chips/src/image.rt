// A card image: a flash over one stretch of bytes, as it lies in a file.
ghost use Rattle.std.specs.Prelude.{◌≡◌, true, false, if◌then◌else◌, MatchOption};
ghost use Rattle.flash.specs.Memory.{in_shape};
ghost use Rattle.chips.specs.ImageLayout.{FoundAt, SeenAt};

use crate::checks::{check_erase, check_next, check_page, check_sector, check_stands};
use crate::image::check::image_shape;
use crate::image::marks::{block_size, block_start};
use crate::image::records::{BlockView, write_blank, write_page};
use flash::{BlockAddress, Flash, NO_BANKS, Refusal, Shape};
use std::marker::Model;
use std::ops::Range;

mod check;
mod format;
mod marks;
mod records;

#[derive(Drop)]
pub struct CardImage<'a> {
    shape: Shape,
    bytes: &'a mut [u8],
}

// An image is its bytes: the shape is kept so that no call looks for it again. The fact that ties the two is that of a model, since the
// borrow checker doesn't cover every function that takes by value a struct with a `&mut` and a ghost field, and covers it with a model.
impl<'a> Model for CardImage<'a> {
    ghost use Rattle.std.specs.Prelude.{◌≡◌, ℕ, List};
    ghost use Rattle.chips.specs.ImageLayout.{named_shape};

    ghost Value = { List ℕ };

    ghost view = { λ i. i.bytes.now };

    // the bytes are an image whose header names just this shape, or the shape has no banks
    ghost invariant = { λ i. i.shape ≡ named_shape i.bytes.now };
}

impl<'a> CardImage<'a> {
    ghost use Rattle.chips.specs.ImageLayout.{is_image, opened, shape_in};
    ghost use Rattle.chips.specs.ImageMemory.{Reopens, bytes_of, memory_of_image, shape_of_image};
    ghost use Rattle.chips.specs.Shapes.{no_shape};

    // The card in these bytes. They are all checked here, and not again: it shows no banks where they are no image.
    pub fn open(bytes: &'a mut [u8]) -> Self
        ensures memory { memory_of_image result ≡ opened bytes.old }
        ensures bytes { bytes_of result ≡ bytes.old }
        ensures shape { shape_of_image result ≡ (if is_image bytes.old then shape_in bytes.old else no_shape) }
        ensures reopens { Reopens result }
    {
        let shape = image_shape(bytes).unwrap_or(NO_BANKS);
        CardImage { shape, bytes }
    }

    // Where the record of a block lies that the image shows. It answers no option, and works out the block's number itself:
    // a call that writes has asked for the block before it asks for the place, and would have to refuse it a second time.
    fn place_of(&self, at: BlockAddress) -> Range<usize>
        requires { in_shape (shape_of_image self.now) at.bank at.block ≡ true }
        ensures { FoundAt (shape_of_image self.now) (bytes_of self.now) at.bank at.block result }
    {
        let start = block_start(self.shape, at.bank * self.shape.blocks + at.block);
        start..start + block_size(self.shape)
    }

    // The block as it lies in the bytes, or none where the image does not show it.
    fn block(&self, at: BlockAddress) -> Option<BlockView<'_>>
        ensures { MatchOption result (in_shape (shape_of_image self.now) at.bank at.block ≡ false) (λ block. SeenAt (shape_of_image self.now) (bytes_of self.now) at.bank at.block block.bytes.now) }
    {
        // not by `then`: of a closure that calls through `self`, which holds a `&mut`, a proof learns nothing
        if !self.shape.contains(at) {
            return None;
        }
        Some(BlockView {
            bytes: &self.bytes[self.place_of(at)],
        })
    }
}

impl<'a> Flash for CardImage<'a> {
    ghost use Rattle.flash.specs.Calls.{erase_number, erased, program_number, programmed, spot};
    ghost use Rattle.flash.specs.Numbers.{answer};
    ghost use Rattle.chips.specs.ImageBounded.{image_bounds};
    ghost use Rattle.chips.specs.ImageLayout.{erased_bytes, programmed_bytes};
    ghost use Rattle.chips.specs.ImageMemory.{bytes_of, memory_of_image, shape_of_image};

    ghost memory = { memory_of_image };

    ghost bounds = { image_bounds };

    fn shape(&self) -> Shape {
        self.shape
    }

    fn standing(&self, at: BlockAddress) -> Option<usize> {
        Some(self.block(at)?.standing())
    }

    fn lives(&self, at: BlockAddress) -> Option<u16> {
        Some(self.block(at)?.lives())
    }

    fn read(
        &self,
        at: BlockAddress,
        page: usize,
        quarter: usize,
        buffer: &mut [u8],
    ) -> Result<(), Refusal> {
        let block = self.block(at).ok_or(Refusal::Outside)?;
        check_sector(self.shape.pages, page, quarter, buffer.len())?;
        check_stands(block.standing(), page)?;
        buffer.copy_from_slice(block.quarter(page, quarter));
        Ok(())
    }

    fn program(&mut self, at: BlockAddress, page: usize, bytes: &[u8]) -> Result<(), Refusal>
        ensures answer { answer result ≡ program_number (spot (memory_of_image self.old) at.bank at.block) page bytes.now }
        ensures after { memory_of_image self.new ≡ programmed (memory_of_image self.old) at.bank at.block page bytes.now }
        ensures shape { shape_of_image self.new ≡ shape_of_image self.old }
        ensures bytes { bytes_of self.new ≡ programmed_bytes (shape_of_image self.old) (bytes_of self.old) at.bank at.block page bytes.now }
    {
        // read before the block is lent: the borrow checker covers no read of the shape beside it
        let pages = self.shape.pages;
        let block = self.block(at).ok_or(Refusal::Outside)?;
        check_page(pages, page, bytes.len())?;
        check_next(block.standing(), page)?;
        let place = self.place_of(at);
        write_page(&mut self.bytes[place], page, bytes);
        Ok(())
    }

    fn erase(&mut self, at: BlockAddress) -> Result<(), Refusal>
        ensures answer { answer result ≡ erase_number (spot (memory_of_image self.old) at.bank at.block) }
        ensures after { memory_of_image self.new ≡ erased (memory_of_image self.old) at.bank at.block }
        ensures shape { shape_of_image self.new ≡ shape_of_image self.old }
        ensures bytes { bytes_of self.new ≡ erased_bytes (shape_of_image self.old) (bytes_of self.old) at.bank at.block }
    {
        let lives = self.lives(at).ok_or(Refusal::Outside)?;
        let left = check_erase(lives)?;
        let place = self.place_of(at);
        write_blank(&mut self.bytes[place], left);
        Ok(())
    }
}
