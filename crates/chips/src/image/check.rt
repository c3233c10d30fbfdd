// Whether bytes are a card image: the checks that opening makes once.
ghost use Rattle.std.specs.Prelude.{◌≡◌, ◌≤◌, Some, None, length, if◌then◌else◌};
ghost use Rattle.chips.specs.ImageLayout.{image_sizes_fit, is_image, shape_in};

use crate::image::marks::{HEADER_MARK, block_size, block_start};
use crate::image::records::BlockView;
use crate::shapes::shape_fits;
use flash::Shape;

// Whether a flash can have the shape, and there are just the bytes that its image needs.
pub(super) fn image_sizes_fit(shape: Shape, bytes: &[u8]) -> bool
    ensures { result ≡ image_sizes_fit shape bytes.now }
{
    shape_fits(shape) && bytes.len() == block_start(shape, shape.banks * shape.blocks)
}

// The shape that the header names, where the bytes are an image.
pub(super) fn image_shape(bytes: &[u8]) -> Option<Shape>
    ensures { result ≡ (if is_image bytes.now then Some (shape_in bytes.now) else None) }
{
    let [banks, blocks, pages, records @ ..] = bytes.strip_prefix(&HEADER_MARK)? else {
        return None;
    };
    let shape = Shape {
        banks: usize::from(*banks),
        blocks: usize::from(*blocks),
        pages: usize::from(*pages),
    };
    if !image_sizes_fit(shape, bytes) {
        return None;
    }
    let fit = records.chunks_exact(block_size(shape)).all(
        |bytes|
            requires { 4 ≤ length bytes.now }
        { BlockView { bytes }.fits() },
    );
    fit.then_some(shape)
}
