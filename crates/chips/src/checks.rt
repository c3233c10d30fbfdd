// The checks that a read, a program and an erase make of a block that is there, in the order of the refusals. Every chip makes them.
ghost use Rattle.std.specs.Prelude.{◌≡◌, ℕ, ◌+◌, ◌<◌, List, length, Some, IfOk, OnErr, OnOk};
ghost use Rattle.flash.specs.Calls.{Spot, erase_number, lives_at, program_number, read_number};
ghost use Rattle.flash.specs.Numbers.{answer};
ghost use Rattle.chips.specs.Checks.{Shows};

use flash::{PAGE, QUARTER, Refusal};

// A read of a quarter, into a buffer of so many bytes, from a block of `pages` pages: the checks that need not know how many of them
// stand. An image has to count those, and does so only for a call that passes here.
pub(crate) fn check_sector(
    pages: usize,
    page: usize,
    quarter: usize,
    bytes: usize,
) -> Result<(), Refusal>
    ensures refused { (s : Spot) (standing : ℕ) (buffer : List ℕ) → Shows s pages standing → length buffer ≡ bytes → OnErr result (answer result ≡ read_number s page quarter buffer) }
    ensures passed { OnOk result ((page < pages) × ((quarter < 4) × (bytes ≡ 512))) }
{
    if page >= pages || quarter >= 4 {
        return Err(Refusal::Outside);
    }
    if bytes != QUARTER {
        return Err(Refusal::Length);
    }
    Ok(())
}

// The last check of a read: the page is one of the first `standing`.
pub(crate) fn check_stands(standing: usize, page: usize) -> Result<(), Refusal>
    ensures answer { (s : Spot) (pages quarter : ℕ) (buffer : List ℕ) → Shows s pages standing → page < pages → quarter < 4 → length buffer ≡ 512 → answer result ≡ read_number s page quarter buffer }
    ensures passed { OnOk result (page < standing) }
{
    if page >= standing {
        return Err(Refusal::Blank);
    }
    Ok(())
}

// All checks of a read, for a chip that keeps the count.
pub(crate) fn check_read(
    pages: usize,
    standing: usize,
    page: usize,
    quarter: usize,
    bytes: usize,
) -> Result<(), Refusal>
    ensures answer { (s : Spot) (buffer : List ℕ) → Shows s pages standing → length buffer ≡ bytes → answer result ≡ read_number s page quarter buffer }
    ensures passed { OnOk result ((page < pages) × ((page < standing) × ((quarter < 4) × (bytes ≡ 512)))) }
{
    check_sector(pages, page, quarter, bytes)?;
    check_stands(standing, page)
}

// A program of a page, from so many bytes: again the checks that need no count.
pub(crate) fn check_page(pages: usize, page: usize, bytes: usize) -> Result<(), Refusal>
    ensures refused { (s : Spot) (standing : ℕ) (source : List ℕ) → Shows s pages standing → length source ≡ bytes → OnErr result (answer result ≡ program_number s page source) }
    ensures passed { OnOk result ((page < pages) × (bytes ≡ 2048)) }
{
    if page >= pages {
        return Err(Refusal::Outside);
    }
    if bytes != PAGE {
        return Err(Refusal::Length);
    }
    Ok(())
}

// The last check of a program: the page is the next one, after the first `standing`.
pub(crate) fn check_next(standing: usize, page: usize) -> Result<(), Refusal>
    ensures answer { (s : Spot) (pages : ℕ) (source : List ℕ) → Shows s pages standing → page < pages → length source ≡ 2048 → answer result ≡ program_number s page source }
    ensures passed { OnOk result (page ≡ standing) }
{
    if page != standing {
        return Err(Refusal::Order);
    }
    Ok(())
}

// All checks of a program, for a chip that keeps the count.
pub(crate) fn check_program(
    pages: usize,
    standing: usize,
    page: usize,
    bytes: usize,
) -> Result<(), Refusal>
    ensures answer { (s : Spot) (source : List ℕ) → Shows s pages standing → length source ≡ bytes → answer result ≡ program_number s page source }
    ensures passed { OnOk result ((page < pages) × ((page ≡ standing) × (bytes ≡ 2048))) }
{
    check_page(pages, page, bytes)?;
    check_next(standing, page)
}

// An erase of a block that has so many lives: answers how many are left to it.
pub(crate) fn check_erase(lives: u16) -> Result<u16, Refusal>
    ensures answer { (s : Spot) → lives_at s ≡ Some lives → answer result ≡ erase_number s }
    ensures passed { IfOk result (λ left. lives ≡ left + 1) }
{
    lives.checked_sub(1).ok_or(Refusal::Worn)
}
