// Formatting: a blank image is written over bytes that its owner lends.
ghost use Rattle.std.specs.Prelude.{◌≡◌, true, if◌then◌else◌};
ghost use Rattle.chips.specs.ImageBlank.{blank_flash, blank_image, header};
ghost use Rattle.chips.specs.ImageLayout.{image_sizes_fit, opened};
ghost use Rattle.chips.specs.Layout.{shape_fits};

use super::CardImage;
use crate::image::check::image_sizes_fit;
use crate::image::marks::{BLOCK_HEAD, HEADER, HEADER_MARK, block_start};
use crate::image::records::block_head;
use flash::Shape;

// The header of an image.
fn header(shape: Shape) -> [u8; HEADER]
    requires { shape_fits shape ≡ true }
    ensures { result ≡ header shape }
{
    let [first, second, version] = HEADER_MARK;
    [
        first,
        second,
        version,
        shape.banks as u8,
        shape.blocks as u8,
        shape.pages as u8,
    ]
}

impl<'a> CardImage<'a> {
    // Writes a blank image, with these lives in every block, and answers true. Where no flash can have the shape,
    // or the bytes are not just as many as its image has, it answers false and writes nothing. The rules of the card
    // ask for just this yes or no.
    pub fn format(shape: Shape, lives: u16, bytes: &mut [u8]) -> bool
        ensures answer { result ≡ image_sizes_fit shape bytes.old }
        ensures bytes { bytes.new ≡ (if image_sizes_fit shape bytes.old then blank_image shape lives else bytes.old) }
        ensures opens { result ≡ true → opened bytes.new ≡ blank_flash shape lives }
    {
        if !image_sizes_fit(shape, bytes) {
            return false;
        }
        // All bytes are FF before the header and the heads are written, and opening refuses a block without its mark. So a formatting
        // that is cut off leaves no image until the last head is there, and never the pages of an older one under the new header.
        bytes.fill(0xFF);
        bytes[..HEADER].copy_from_slice(&header(shape));
        let head = block_head(lives);
        // By an index: of what a loop writes to lent parts, by `chunks_exact_mut` or by `split_at_mut`, nothing is known after it.
        for i in 0..shape.banks * shape.blocks {
            let start = block_start(shape, i);
            bytes[start..start + BLOCK_HEAD].copy_from_slice(&head);
        }
        true
    }
}
