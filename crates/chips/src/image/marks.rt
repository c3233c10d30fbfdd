// The marks in a card image, and where things lie.
ghost use Rattle.std.specs.Prelude.{◌≡◌, ◌≤◌};
ghost use Rattle.chips.specs.ImageLayout.{block_size, block_start};

use flash::{PAGE, Shape};

// At the start of an image: its mark, and the version of its format.
pub(super) const HEADER_MARK: [u8; 3] = [0x43, 0x49, 0x01];

// At the start of a block.
pub(super) const BLOCK_MARK: [u8; 2] = [0x42, 0x4B];

// Before the data of a page that stands.
pub(super) const STANDING_MARK: [u8; 2] = [0x50, 0x47];

// Before the data of a page that does not.
pub(super) const BLANK_MARK: [u8; 2] = [0xFF, 0xFF];

// The bytes of the mark of a block or of a page.
pub(super) const MARK: usize = STANDING_MARK.len();

// The bytes before the first block: the mark, and three for the shape.
pub(super) const HEADER: usize = HEADER_MARK.len() + 3;

// The bytes before the pages of a block: its mark, and two for its lives.
pub(super) const BLOCK_HEAD: usize = BLOCK_MARK.len() + 2;

// The bytes of a page with its mark.
pub(super) const PAGE_RECORD: usize = MARK + PAGE;

// The bytes of a block with its mark and its lives. The bound is asked, and not carried by a type of shapes: a struct with such a fact
// could not lie in an image, beside its bytes.
pub(super) fn block_size(shape: Shape) -> usize
    requires { shape.pages ≤ 64 }
    ensures { result ≡ block_size shape }
{
    BLOCK_HEAD + PAGE_RECORD * shape.pages
}

// Where the record of a block starts, and with the number of all blocks, where the image ends.
pub(super) fn block_start(shape: Shape, i: usize) -> usize
    requires { (shape.pages ≤ 64) × (i ≤ 1024) }
    ensures { result ≡ block_start shape i }
{
    HEADER + i * block_size(shape)
}
