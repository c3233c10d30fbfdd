// How the last blocks of each bank replace the bad ones.
ghost use Rattle.std.specs.Prelude.{◌≡◌, ℕ, ◌-◌, ◌<◌, ◌≤◌, true, false, length, slice_get, slice_index, MatchOption};
ghost use Rattle.std.specs.List.{range_with_len};
ghost use Rattle.flash.specs.Maps.{bad_of, good_of, is_bad};
ghost use Rattle.flash.specs.Memory.{shape_of};
ghost use Rattle.layers.specs.Replaced.{bank_enough, enough, listed, replaceable};
ghost use Rattle.layers.specs.ReplacedPlaces.{place_in};

use flash::{BlockAddress, Flash, Shape};

// What is asked of the parts of a plan, before there is one and in it. A bank and a block are two numbers here, since the blocks of a
// bank are gone through by their numbers.

// Whether the list has the block. This is asked for each block of each bank, so it compares the two numbers as they stand:
// `contains`, which compares whole addresses, takes longer.
fn is_bad(bad: &[BlockAddress], bank: usize, block: usize) -> bool
    ensures { result ≡ is_bad bad.now bank block }
{
    bad.iter().any(|at| at.bank == bank && at.block == block)
}

// How many blocks of a bank before `end` are bad.
fn count_bad(bad: &[BlockAddress], bank: usize, end: usize) -> usize
    ensures { result ≡ length (bad_of bad.now bank (range_with_len 0 end)) }
{
    (0..end).filter(|&block| is_bad(bad, bank, block)).count()
}

// Whether each bad block is a block of the flash, and none is repeated.
fn listed(below: Shape, bad: &[BlockAddress]) -> bool
    ensures { result ≡ listed below.banks below.blocks bad.now }
{
    match bad {
        [] => true,
        [at, rest @ ..] => below.contains(*at) && !rest.contains(at) && listed(below, rest),
    }
}

// Whether a bank has a good spare for each of its bad shown blocks: just where it has no more bad blocks in all than spares.
#[tactic(auto, using(crate::proofs::ReplacedLists::bank_enough_is))]
fn bank_enough(below: Shape, spares: usize, bad: &[BlockAddress], bank: usize) -> bool
    ensures { result ≡ bank_enough below.blocks spares bad.now bank }
{
    count_bad(bad, bank, below.blocks) <= spares
}

// Whether each bank has enough of them.
fn enough(below: Shape, spares: usize, bad: &[BlockAddress]) -> bool
    ensures { result ≡ enough below.blocks spares bad.now below.banks }
{
    (0..below.banks).all(|bank| bank_enough(below, spares, bad, bank))
}

// Whether the last `spares` blocks of each bank can replace the bad blocks.
fn replaceable(below: Shape, spares: usize, bad: &[BlockAddress]) -> bool
    ensures { result ≡ replaceable below.banks below.blocks spares bad.now }
{
    spares <= 8
        && spares < below.blocks
        && bad.len() <= 32
        && listed(below, bad)
        && enough(below, spares, bad)
}

// A flash of the shape `below`, and its bad blocks, which the last `spares` blocks of each bank can replace.
#[derive(Drop)]
pub(super) struct Plan<'a> {
    below: Shape,
    spares: usize,
    bad: &'a [BlockAddress],
    ghost few_banks: { below.banks ≤ 16 },
    ghost few_blocks: { below.blocks ≤ 64 },
    ghost some_shown: { spares < below.blocks },
    ghost can: { replaceable below.banks below.blocks spares bad.now ≡ true },
}

impl<'a> Plan<'a> {
    ghost use Rattle.layers.specs.ReplacedPlan.{planned, shown_of};

    // The plan for the flash `inner`, or none where the spares cannot replace its bad blocks.
    pub fn new<F: Flash>(inner: &F, spares: usize, bad: &'a [BlockAddress]) -> Option<Plan<'a>>
        ensures { let m = F.Flash.memory inner.now in MatchOption result (replaceable m.banks m.blocks spares bad.now ≡ false) (λ p. (p.below ≡ shape_of m) × (p.spares ≡ spares) × (p.bad.now ≡ bad.now)) }
    {
        let below = inner.shape();
        if !replaceable(below, spares, bad) {
            return None;
        }
        Some(Plan { below, spares, bad })
    }

    // How many blocks of each bank are shown.
    pub fn shown(&self) -> usize
        ensures { result ≡ shown_of self.now }
    {
        self.below.blocks - self.spares
    }

    // The good spare of a bank with this index.
    fn good_spare(&self, bank: usize, index: usize) -> Option<usize>
        ensures { result ≡ slice_get (good_of self.now.bad.now bank (range_with_len (shown_of self.now) self.now.spares)) index }
    {
        (self.shown()..self.below.blocks)
            .filter(|&spare| !is_bad(self.bad, bank, spare))
            .nth(index)
    }

    // Where a shown block is found: a good one is itself, and the bad ones, rising, take the good spares, rising.
    #[tactic(auto, using(crate::proofs::ReplacedApart::found_spare, crate::proofs::ReplacedApart::place_below))]
    fn place(&self, bank: usize, block: usize) -> usize
        requires bank { bank < self.now.below.banks }
        requires shown { block < shown_of self.now }
        ensures is { result ≡ planned self.now bank block }
        ensures low { result < self.now.below.blocks }
    {
        if !is_bad(self.bad, bank, block) {
            return block;
        }
        let before = count_bad(self.bad, bank, block);
        self.good_spare(bank, before).unwrap()
    }

    // The places of the shown blocks of a bank. Filled in place: what `array::from_fn` promises forgets what its closure reads.
    fn row(&self, bank: usize) -> [u8; 64]
        requires { bank < self.now.below.banks }
        ensures { (k : ℕ) → k < shown_of self.now → slice_index result k ≡ planned self.now bank k }
    {
        let mut row = [0; 64];
        for (block, place) in row[..self.shown()].iter_mut().enumerate() {
            *place = self.place(bank, block) as u8;
        }
        row
    }

    // The rows of all banks.
    pub fn rows(&self) -> [[u8; 64]; 16]
        ensures { (b k : ℕ) → b < self.now.below.banks → k < shown_of self.now → place_in result b k ≡ planned self.now b k }
    {
        let mut rows = [[0; 64]; 16];
        for (bank, row) in rows[..self.below.banks].iter_mut().enumerate() {
            *row = self.row(bank);
        }
        rows
    }
}
