// A bare chip: a flash over bytes and block records that its owner lends.
// Both lie bank by bank and block by block, and the bytes of a block page by page. They stay two slices, since the owner's memory
// has that form: the bytes of all pages, and a record for each block.
ghost use Rattle.std.specs.Prelude.{◌≡◌, ◌<◌, true, false, All, MatchOption, OnErr};
ghost use Rattle.flash.specs.Calls.{erase_number, erased, program_number, programmed, spot};
ghost use Rattle.flash.specs.Memory.{inside, shape_of};
ghost use Rattle.flash.specs.Numbers.{answer};
ghost use Rattle.chips.specs.Layout.{Found, Whole, counts_fit, laid_out, made_of, new_memory, sizes_fit};

use crate::checks::{check_erase, check_program, check_read};
use crate::record::BlockRecord;
use crate::shapes::shape_fits;
use flash::{BlockAddress, Flash, NO_BANKS, PAGE, QUARTER, Refusal, Shape};
use std::marker::Model;

#[derive(Drop)]
pub struct BareChip<'a> {
    shape: Shape,
    bytes: &'a mut [u8],
    records: &'a mut [BlockRecord],
}

// A clause sees what the chip is made of. A model, and no ghost field: a chip with a ghost field beside what it borrows could not be
// taken by value and handed on.
impl<'a> Model for BareChip<'a> {
    ghost use Rattle.chips.specs.Layout.{Parts, Whole, made_of};

    ghost Value = { Parts };

    ghost view = { λ c. made_of c.shape c.bytes.now c.records.now };

    // the shape is that of a flash, each of its blocks has its bytes and its record, and a chip with banks has no others
    ghost invariant = { λ c. Whole (made_of c.shape c.bytes.now c.records.now) };
}

// Whether a flash can have the shape, and there are just as many bytes and records as it needs. The blocks are counted here by their
// product, as elsewhere: a function for it would require what keeps it from being too large.
fn sizes_fit(shape: Shape, bytes: &[u8], records: &[BlockRecord]) -> bool
    ensures { result ≡ sizes_fit (made_of shape bytes.now records.now) }
{
    shape_fits(shape)
        && records.len() == shape.banks * shape.blocks
        && bytes.len() == shape.banks * shape.blocks * shape.pages * PAGE
}

// Whether no record counts more standing pages than the pages of a block. Any number of lives will do, and the call for each record
// tells a proof that they fit their type.
fn counts_fit(pages: usize, records: &[BlockRecord]) -> bool
    ensures answer { result ≡ counts_fit pages records.now }
    ensures lives { result ≡ true → All (λ r. r.lives < 65536) records.now }
{
    records.iter().all(|one| one.fits_block(pages))
}

impl<'a> BareChip<'a> {
    ghost use Rattle.chips.specs.Bounded.{memory_of};

    // A chip over these bytes and records as they are. It shows no banks where they do not fit the shape,
    // or where a record counts more standing pages than a block has: making a chip cannot fail, and a flash without banks is one too.
    pub fn new(shape: Shape, bytes: &'a mut [u8], records: &'a mut [BlockRecord]) -> Self
        ensures { memory_of result ≡ new_memory (made_of shape bytes.old records.old) }
    {
        // The chip stands here twice: with its shape chosen first, the proof of what its type says gives up where the two ways meet.
        if !sizes_fit(shape, bytes, records) || !counts_fit(shape.pages, records) {
            return BareChip {
                shape: NO_BANKS,
                bytes,
                records,
            };
        }
        BareChip {
            shape,
            bytes,
            records,
        }
    }

    // The number of a block, counted from 0 over the whole chip, or none where the chip does not show the block.
    fn number_of(&self, at: BlockAddress) -> Option<usize>
        ensures number { MatchOption result (inside (memory_of self.now) at.bank at.block ≡ false) (Found self.now.shape at.bank at.block) }
        ensures whole { Whole self.now }
    {
        // read before the closure: of one that goes through `self`, which holds a `&mut`, a proof learns nothing
        let blocks = self.shape.blocks;
        self.shape.contains(at).then(|| at.bank * blocks + at.block)
    }
}

impl<'a> Flash for BareChip<'a> {
    ghost use Rattle.chips.specs.Bounded.{bounds_of, memory_of, parts_of};

    ghost memory = { memory_of };

    ghost bounds = { bounds_of };

    // Also tells what holds of the parts of every chip, and that it shows their flash: of a model a caller sees the value alone.
    fn shape(&self) -> Shape
        ensures shape { result ≡ shape_of (memory_of self.now) }
        ensures whole { Whole (parts_of self.now) }
        ensures shown { memory_of self.now ≡ laid_out (parts_of self.now) }
    {
        self.shape
    }

    fn standing(&self, at: BlockAddress) -> Option<usize> {
        let i = self.number_of(at)?;
        Some(usize::from(self.records[i].standing))
    }

    fn lives(&self, at: BlockAddress) -> Option<u16> {
        let i = self.number_of(at)?;
        Some(self.records[i].lives)
    }

    fn read(
        &self,
        at: BlockAddress,
        page: usize,
        quarter: usize,
        buffer: &mut [u8],
    ) -> Result<(), Refusal> {
        let i = self.number_of(at).ok_or(Refusal::Outside)?;
        let standing = usize::from(self.records[i].standing);
        check_read(self.shape.pages, standing, page, quarter, buffer.len())?;
        let start = (i * self.shape.pages + page) * PAGE + quarter * QUARTER;
        buffer.copy_from_slice(&self.bytes[start..start + QUARTER]);
        Ok(())
    }

    // Where it is refused, it also leaves the bytes of pages that do not stand.
    fn program(&mut self, at: BlockAddress, page: usize, bytes: &[u8]) -> Result<(), Refusal>
        ensures answer { answer result ≡ program_number (spot (memory_of self.old) at.bank at.block) page bytes.now }
        ensures after { memory_of self.new ≡ programmed (memory_of self.old) at.bank at.block page bytes.now }
        ensures refused { OnErr result (parts_of self.new ≡ parts_of self.old) }
    {
        let i = self.number_of(at).ok_or(Refusal::Outside)?;
        let standing = usize::from(self.records[i].standing);
        check_program(self.shape.pages, standing, page, bytes.len())?;
        let start = (i * self.shape.pages + page) * PAGE;
        self.bytes[start..start + PAGE].copy_from_slice(bytes);
        self.records[i].standing += 1;
        Ok(())
    }

    // Also leaves the bytes of the pages, though none of the block's pages stands any more.
    fn erase(&mut self, at: BlockAddress) -> Result<(), Refusal>
        ensures answer { answer result ≡ erase_number (spot (memory_of self.old) at.bank at.block) }
        ensures after { memory_of self.new ≡ erased (memory_of self.old) at.bank at.block }
        ensures bytes { (parts_of self.new).bytes ≡ (parts_of self.old).bytes }
        ensures refused { OnErr result (parts_of self.new ≡ parts_of self.old) }
    {
        let i = self.number_of(at).ok_or(Refusal::Outside)?;
        let left = check_erase(self.records[i].lives)?;
        self.records[i] = BlockRecord::blank(left);
        Ok(())
    }
}
