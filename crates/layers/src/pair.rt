// Two flashes as one, which may be of different kinds: the banks of the second follow those of the first.
ghost use Rattle.std.specs.Prelude.{◌≡◌};
ghost use Rattle.layers.specs.Paired.{matched_shapes, paired, paired_bounds, side_of};

use flash::{BlockAddress, Flash, NO_BANKS, Refusal, Shape};

#[derive(Drop)]
pub struct Pair<A, B> {
    first: A,
    second: B,
}

// A block of one of the two flashes, at its address there.
#[derive(Clone, Copy)]
enum Side {
    First(BlockAddress),
    Second(BlockAddress),
}

impl<A: Flash, B: Flash> Pair<A, B> {
    // Any two flashes. The pair shows no banks where their blocks or pages differ, or where they have more than 16 banks together.
    pub fn new(first: A, second: B) -> Self
        ensures memory { paired (A.Flash.memory result.first) (B.Flash.memory result.second) ≡ paired (A.Flash.memory first) (B.Flash.memory second) }
        ensures first { result.first ≡ first }
        ensures second { result.second ≡ second }
    {
        Pair { first, second }
    }

    // The shapes of the two, or none where the pair shows no banks.
    fn shapes(&self) -> Option<(Shape, Shape)>
        ensures { result ≡ matched_shapes (A.Flash.memory self.now.first) (B.Flash.memory self.now.second) }
    {
        let first = self.first.shape();
        let second = self.second.shape();
        let alike = first.blocks == second.blocks && first.pages == second.pages;
        (alike && first.banks + second.banks <= 16).then_some((first, second))
    }

    // On which of the two a block of the pair lies, and its address there, or none where the pair shows no banks.
    fn side(&self, at: BlockAddress) -> Option<Side>
        ensures { result ≡ side_of (A.Flash.memory self.now.first) (B.Flash.memory self.now.second) at }
    {
        let (first, _) = self.shapes()?;
        Some(if at.bank < first.banks {
            Side::First(at)
        } else {
            Side::Second(BlockAddress {
                bank: at.bank - first.banks,
                ..at
            })
        })
    }
}

impl<A: Flash, B: Flash> Flash for Pair<A, B> {
    ghost memory = { λ s. paired (A.Flash.memory s.first) (B.Flash.memory s.second) };

    ghost bounds = { λ s. paired_bounds (A.Flash.memory s.first) (B.Flash.memory s.second) (A.Flash.bounds s.first) (B.Flash.bounds s.second) };

    fn shape(&self) -> Shape {
        self.shapes().map_or(
            NO_BANKS,
            |(first, second)| Shape {
                banks: first.banks + second.banks,
                ..first
            },
        )
    }

    fn standing(&self, at: BlockAddress) -> Option<usize> {
        match self.side(at)? {
            Side::First(at) => self.first.standing(at),
            Side::Second(at) => self.second.standing(at),
        }
    }

    fn lives(&self, at: BlockAddress) -> Option<u16> {
        match self.side(at)? {
            Side::First(at) => self.first.lives(at),
            Side::Second(at) => self.second.lives(at),
        }
    }

    fn read(
        &self,
        at: BlockAddress,
        page: usize,
        quarter: usize,
        buffer: &mut [u8],
    ) -> Result<(), Refusal> {
        match self.side(at).ok_or(Refusal::Outside)? {
            Side::First(at) => self.first.read(at, page, quarter, buffer),
            Side::Second(at) => self.second.read(at, page, quarter, buffer),
        }
    }

    fn program(&mut self, at: BlockAddress, page: usize, bytes: &[u8]) -> Result<(), Refusal> {
        match self.side(at).ok_or(Refusal::Outside)? {
            Side::First(at) => self.first.program(at, page, bytes),
            Side::Second(at) => self.second.program(at, page, bytes),
        }
    }

    fn erase(&mut self, at: BlockAddress) -> Result<(), Refusal> {
        match self.side(at).ok_or(Refusal::Outside)? {
            Side::First(at) => self.first.erase(at),
            Side::Second(at) => self.second.erase(at),
        }
    }
}
