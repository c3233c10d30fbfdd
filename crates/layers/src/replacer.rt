// A flash with bad blocks as a smaller flash without them: the last blocks of each bank are spares, and replace the bad ones.
ghost use Rattle.std.specs.Prelude.{◌≡◌, ℕ, ◌<◌, ◌≤◌, false, MatchOption};
ghost use Rattle.flash.specs.Memory.{inside};
ghost use Rattle.layers.specs.Replaced.{replaced};
ghost use Rattle.layers.specs.ReplacedPlaces.{Found, place_in, shown_by, shown_by_bounds};

use self::plan::Plan;
use flash::{BlockAddress, Flash, NO_BANKS, Refusal, Shape};

mod plan;

// The flash `inner`, of which the first `shown` blocks of each bank are shown: 0 where its bad blocks cannot be replaced, and no `Option`
// of a table, which would be a struct with facts of its own beside the flash: that is not covered where the flash holds a `&mut`.
// For each bank a row has the places of these blocks, no two at one place. The rows are worked out once, and looked up in each call;
// they have room for the largest flash, since the layers allocate nothing.
#[derive(Drop)]
pub struct Replacer<F: Flash> {
    inner: F,
    shown: usize,
    rows: [[u8; 64]; 16],
    ghost few: { shown ≤ (F.Flash.memory inner).blocks },
    ghost low: { (b k : ℕ) → b < (F.Flash.memory inner).banks → k < shown → place_in rows b k < (F.Flash.memory inner).blocks },
    ghost apart: { (b j k : ℕ) → b < (F.Flash.memory inner).banks → j < shown → k < shown → place_in rows b j ≡ place_in rows b k → j ≡ k },
}

impl<F: Flash> Replacer<F> {
    // The flash `inner` without the last `spares` blocks of each bank, and without the bad blocks.
    // It shows no banks where there are more than 8 spares or no blocks besides them, where there are more than 32 bad blocks,
    // one that is not a block of the flash or one that is repeated, or where a bank has too few good spares.
    pub fn new(inner: F, spares: usize, bad: &[BlockAddress]) -> Self
        ensures memory { shown_by result.shown result.rows (F.Flash.memory result.inner) ≡ replaced spares bad.now (F.Flash.memory inner) }
        ensures inner { result.inner ≡ inner }
    {
        // two values of the type, and not one made of what the two ways give: where they meet, the proof of its facts gives up
        let Some(plan) = Plan::new(&inner, spares, bad) else {
            return Replacer {
                inner,
                shown: 0,
                rows: [[0; 64]; 16],
            };
        };
        Replacer {
            inner,
            shown: plan.shown(),
            rows: plan.rows(),
        }
    }

    // Where a block is found below, or none where the block is not shown.
    fn find(&self, at: BlockAddress) -> Option<BlockAddress>
        ensures { MatchOption result (inside (shown_by self.now.shown self.now.rows (F.Flash.memory self.now.inner)) at.bank at.block ≡ false) (Found self.now.shown self.now.rows (F.Flash.memory self.now.inner) at) }
    {
        self.shape().contains(at).then(|| BlockAddress {
            block: usize::from(self.rows[at.bank][at.block]),
            ..at
        })
    }
}

impl<F: Flash> Flash for Replacer<F> {
    ghost memory = { λ s. shown_by s.shown s.rows (F.Flash.memory s.inner) };

    ghost bounds = { λ s. shown_by_bounds s.shown s.rows (F.Flash.memory s.inner) (F.Flash.bounds s.inner) s.few };

    fn shape(&self) -> Shape {
        if self.shown == 0 {
            return NO_BANKS;
        }
        Shape {
            blocks: self.shown,
            ..self.inner.shape()
        }
    }

    fn standing(&self, at: BlockAddress) -> Option<usize> {
        let place = self.find(at)?;
        self.inner.standing(place)
    }

    fn lives(&self, at: BlockAddress) -> Option<u16> {
        let place = self.find(at)?;
        self.inner.lives(place)
    }

    fn read(
        &self,
        at: BlockAddress,
        page: usize,
        quarter: usize,
        buffer: &mut [u8],
    ) -> Result<(), Refusal> {
        let place = self.find(at).ok_or(Refusal::Outside)?;
        self.inner.read(place, page, quarter, buffer)
    }

    fn program(&mut self, at: BlockAddress, page: usize, bytes: &[u8]) -> Result<(), Refusal> {
        let place = self.find(at).ok_or(Refusal::Outside)?;
        self.inner.program(place, page, bytes)
    }

    fn erase(&mut self, at: BlockAddress) -> Result<(), Refusal> {
        let place = self.find(at).ok_or(Refusal::Outside)?;
        self.inner.erase(place)
    }
}
