// The record of a block: how it is read and written.
ghost use Rattle.std.specs.Prelude.{◌≡◌, ℕ, ◌+◌, ◌*◌, ◌<◌, ◌≤◌, ◌++◌, length, take, drop, replicate};
ghost use Rattle.chips.specs.ImageBlank.{block_head};
ghost use Rattle.chips.specs.ImageLayout.{lives_in, page_in, block_fits, standing_in, with_page};

use crate::image::marks::{BLANK_MARK, BLOCK_HEAD, BLOCK_MARK, MARK, PAGE_RECORD, STANDING_MARK};
use flash::QUARTER;

// A block as it lies in an image: its mark, its lives, and the records of its pages. What is said of its pages is said
// of each number n of them that the length allows: how many there are is not kept a second time beside the bytes.
#[derive(Clone, Copy)]
pub(super) struct BlockView<'a> {
    pub(super) bytes: &'a [u8],
    // the mark and the lives are there
    ghost headed: { 4 ≤ length bytes.now },
}

impl<'a> BlockView<'a> {
    // The lives, with the low byte first.
    pub(super) fn lives(&self) -> u16
        ensures { result ≡ lives_in self.now.bytes.now }
    {
        u16::from_le_bytes([self.bytes[2], self.bytes[3]])
    }

    // How many of the pages stand: those up to the last that is marked as standing.
    pub(super) fn standing(&self) -> usize
        ensures { (n : ℕ) → length self.now.bytes.now ≡ 4 + 2050 * n → result ≡ standing_in self.now.bytes.now n }
    {
        let pages = &self.bytes[BLOCK_HEAD..];
        // `rchunks_exact`, since from the back `chunks` and `chunks_exact` divide at each step. All pages are whole.
        let after = pages
            .rchunks_exact(PAGE_RECORD)
            .position(|page| page.starts_with(&STANDING_MARK));
        after.map_or(0, |after| pages.len() / PAGE_RECORD - after)
    }

    // Whether the block has its mark, and its pages are marked as standing, and from some page on as blank. Opening asks this of every
    // block, so it is one pass over the marks.
    pub(super) fn fits(&self) -> bool
        ensures { (n : ℕ) → length self.now.bytes.now ≡ 4 + 2050 * n → result ≡ block_fits self.now.bytes.now n }
    {
        if !self.bytes.starts_with(&BLOCK_MARK) {
            return false;
        }
        let pages = &self.bytes[BLOCK_HEAD..];
        let standing = pages
            .chunks_exact(PAGE_RECORD)
            .take_while(|page| page.starts_with(&STANDING_MARK))
            .count();
        pages[standing * PAGE_RECORD..]
            .chunks_exact(PAGE_RECORD)
            .all(|page| page.starts_with(&BLANK_MARK))
    }

    // One quarter of a page's data.
    pub(super) fn quarter(&self, page: usize, quarter: usize) -> &'a [u8]
        requires { (4 + page * 2050 + 2050 ≤ length self.now.bytes.now) × (quarter < 4) }
        ensures value { result.now ≡ take 512 (drop (quarter * 512) (page_in self.now.bytes.now page)) }
        ensures len { length result.now ≡ 512 }
    {
        let first = BLOCK_HEAD + page * PAGE_RECORD + MARK + quarter * QUARTER;
        &self.bytes[first..first + QUARTER]
    }
}

// Writes the data of a page and then its mark, so that a cut between the two leaves the page blank.
pub(super) fn write_page(block: &mut [u8], page: usize, bytes: &[u8])
    requires { (4 + page * 2050 + 2050 ≤ length block.old) × (length bytes.now ≡ 2048) }
    ensures { block.new ≡ with_page block.old page bytes.now }
{
    let first = BLOCK_HEAD + page * PAGE_RECORD;
    block[first + MARK..first + PAGE_RECORD].copy_from_slice(bytes);
    block[first..first + MARK].copy_from_slice(&STANDING_MARK);
}

// What the record of a block starts with: its mark, and its lives with the low byte first.
pub(super) fn block_head(lives: u16) -> [u8; BLOCK_HEAD]
    ensures { result ≡ block_head lives }
{
    let [first, second] = BLOCK_MARK;
    let [low, high] = lives.to_le_bytes();
    [first, second, low, high]
}

// Writes the record of a blank block, its pages before its lives.
pub(super) fn write_blank(block: &mut [u8], lives: u16)
    requires { 4 ≤ length block.old }
    ensures { (n : ℕ) → length block.old ≡ 4 + n → block.new ≡ block_head lives ++ replicate n 0xFF }
{
    block[BLOCK_HEAD..].fill(0xFF);
    block[..BLOCK_HEAD].copy_from_slice(&block_head(lives));
}
