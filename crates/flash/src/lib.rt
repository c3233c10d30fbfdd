// A flash: banks of blocks of pages, what it means, and what every kind of it answers.
#![tactic(auto)]

ghost use Rattle.std.specs.Prelude.{◌≡◌};
ghost use Rattle.flash.specs.Memory.{Memory, Bounds, in_shape, shape_of};
ghost use Rattle.flash.specs.Calls.{spot, standing_at, lives_at, program_number, programmed, read_number, filled, erase_number, erased};
ghost use Rattle.flash.specs.Maps.{address};
ghost use Rattle.flash.specs.Numbers.{answer};

// Why a flash refuses a call. The first that applies is the answer.
#[derive(Clone, Copy, PartialEq, Eq, Debug)]
pub enum Refusal {
    // the bank, block, page or quarter is not in the shape
    Outside,
    // the caller's bytes are not a page, or not a sector
    Length,
    // the page is not the next one of its block
    Order,
    // the page does not stand
    Blank,
    // the block has no lives left
    Worn,
}

// How many banks a flash has, blocks in each bank, and pages in each block. It never changes.
#[derive(Clone, Copy, PartialEq, Eq, Debug)]
pub struct Shape {
    pub banks: usize,
    pub blocks: usize,
    pub pages: usize,
}

// A block of a flash: its bank, and its number in the bank.
#[derive(Clone, Copy, PartialEq, Eq, Debug)]
pub struct BlockAddress {
    pub bank: usize,
    pub block: usize,
}

impl BlockAddress {
    pub fn new(bank: usize, block: usize) -> Self
        ensures { result ≡ address bank block }
    {
        BlockAddress { bank, block }
    }
}

impl Shape {
    pub fn new(banks: usize, blocks: usize, pages: usize) -> Self
        ensures { result ≡ record { banks = banks; blocks = blocks; pages = pages } }
    {
        Shape {
            banks,
            blocks,
            pages,
        }
    }

    // Whether a flash of this shape has the block.
    pub fn contains(self, at: BlockAddress) -> bool
        ensures { result ≡ in_shape self at.bank at.block }
    {
        at.bank < self.banks && at.block < self.blocks
    }
}

// What a flash shows that has no banks. A constant with a name, and no `Default`: the name says what the zeros are.
pub const NO_BANKS: Shape = Shape {
    banks: 0,
    blocks: 0,
    pages: 0,
};

// The bytes of a page, and of a quarter of it.
pub const PAGE: usize = 2048;

pub const QUARTER: usize = 512;

// Whatever keeps the meaning of a flash: a chip, or a layer over another flash. An implementation that promises more of a call
// says these clauses again, since its own take their place.
// A page is 2,048 bytes, four quarters of 512. A page stands from its program until the erase of its block.
pub trait Flash {
    // what the value means; where an implementing type has a model, what a value of that model means
    ghost memory: { Self → Memory };

    // every value is within the bounds of a flash
    ghost bounds: { (s : Self) → Bounds (memory s) };

    fn shape(&self) -> Shape
        ensures { result ≡ shape_of (memory self.now) };

    // How many pages stand in a block, or none where the block is not there.
    fn standing(&self, at: BlockAddress) -> Option<usize>
        ensures { result ≡ standing_at (spot (memory self.now) at.bank at.block) };

    // How many erases a block can still take, or none where the block is not there.
    fn lives(&self, at: BlockAddress) -> Option<u16>
        ensures { result ≡ lives_at (spot (memory self.now) at.bank at.block) };

    // Fills a sector's buffer with one quarter of a standing page. The two are two numbers, since a program has a page alone.
    fn read(
        &self,
        at: BlockAddress,
        page: usize,
        quarter: usize,
        buffer: &mut [u8],
    ) -> Result<(), Refusal>
        ensures answer { answer result ≡ read_number (spot (memory self.now) at.bank at.block) page quarter buffer.old }
        ensures buffer { buffer.new ≡ filled (spot (memory self.now) at.bank at.block) page quarter buffer.old };

    // Adds one page at the end of a block's standing pages.
    fn program(&mut self, at: BlockAddress, page: usize, bytes: &[u8]) -> Result<(), Refusal>
        ensures answer { answer result ≡ program_number (spot (memory self.old) at.bank at.block) page bytes.now }
        ensures after { memory self.new ≡ programmed (memory self.old) at.bank at.block page bytes.now };

    // Empties a block and takes one of its lives.
    fn erase(&mut self, at: BlockAddress) -> Result<(), Refusal>
        ensures answer { answer result ≡ erase_number (spot (memory self.old) at.bank at.block) }
        ensures after { memory self.new ≡ erased (memory self.old) at.bank at.block };
}
