// What a bare chip keeps of each block.
ghost use Rattle.std.specs.Prelude.{◌≡◌, ◌<◌, nat_le};

#[derive(Clone, Copy, PartialEq, Eq, Debug)]
pub struct BlockRecord {
    // how many of the block's pages stand: programmed since its last erase
    pub standing: u8,
    // how many erases the block can still take
    pub lives: u16,
}

impl BlockRecord {
    // The record of a block in which no page stands.
    pub fn blank(lives: u16) -> Self
        ensures standing { result.standing ≡ 0 }
        ensures lives { result.lives ≡ lives }
    {
        BlockRecord { standing: 0, lives }
    }

    // Whether a block of so many pages can have this record. Any number of lives will do: that they fit their type is what the call
    // tells a proof.
    pub(crate) fn fits_block(self, pages: usize) -> bool
        ensures answer { result ≡ nat_le self.standing pages }
        ensures lives { self.lives < 65536 }
    {
        usize::from(self.standing) <= pages
    }
}
