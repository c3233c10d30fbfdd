// A flash whose pages are stored whitened in the one below: each byte as its exclusive or with a mask,
// by its position, page, block and bank, so that what is stored has no long runs of equal bits.
ghost use Rattle.std.specs.Prelude.{◌≡◌};
ghost use Rattle.flash.specs.Maps.{mask};
ghost use Rattle.layers.specs.Whitened.{whitened, whitened_bounds, whitened_run};

use flash::{BlockAddress, Flash, PAGE, Refusal, Shape};

#[derive(Drop)]
pub struct Whitener<F> {
    inner: F,
}

// The mask of the first byte of a page, and of each of its quarters too, since they begin at multiples of 256.
// Each number counts modulo 256, so that no sum is too large, whatever numbers a caller gives.
fn first_mask(at: BlockAddress, page: usize) -> u8
    ensures { result ≡ mask at.bank at.block page 0 }
{
    ((37 * (page % 256) + 101 * (at.block % 256) + 11 * (at.bank % 256)) % 256) as u8
}

// Whitens bytes that follow one another in a page, in one pass. The mask of the first is given, and it rises by one with each.
fn whiten(first: u8, bytes: &mut [u8])
    ensures { bytes.new ≡ whitened_run first bytes.old }
{
    for (index, byte) in bytes.iter_mut().enumerate() {
        *byte ^= first.wrapping_add((index % 256) as u8);
    }
}

impl<F: Flash> Whitener<F> {
    pub fn new(inner: F) -> Self
        ensures memory { whitened (F.Flash.memory result.inner) ≡ whitened (F.Flash.memory inner) }
        ensures inner { result.inner ≡ inner }
    {
        Whitener { inner }
    }
}

#[tactic(auto, using(crate::proofs::Whites::same_counts, crate::proofs::Whites::whitened_filled))]
impl<F: Flash> Flash for Whitener<F> {
    ghost memory = { λ s. whitened (F.Flash.memory s.inner) };

    ghost bounds = { λ s. whitened_bounds (F.Flash.memory s.inner) (F.Flash.bounds s.inner) };

    fn shape(&self) -> Shape {
        self.inner.shape()
    }

    fn standing(&self, at: BlockAddress) -> Option<usize> {
        self.inner.standing(at)
    }

    fn lives(&self, at: BlockAddress) -> Option<u16> {
        self.inner.lives(at)
    }

    fn read(
        &self,
        at: BlockAddress,
        page: usize,
        quarter: usize,
        buffer: &mut [u8],
    ) -> Result<(), Refusal> {
        self.inner.read(at, page, quarter, buffer)?;
        whiten(first_mask(at, page), buffer);
        Ok(())
    }

    // What is outside every flash, or no page, is refused below, whatever its bytes are: it goes down as it is, at once.
    fn program(&mut self, at: BlockAddress, page: usize, bytes: &[u8]) -> Result<(), Refusal> {
        if at.bank >= 16 || at.block >= 64 || page >= 64 {
            return self.inner.program(at, page, bytes);
        }
        let Ok(mut stored) = <[u8; PAGE]>::try_from(bytes) else {
            return self.inner.program(at, page, bytes);
        };
        whiten(first_mask(at, page), &mut stored);
        self.inner.program(at, page, &stored)
    }

    fn erase(&mut self, at: BlockAddress) -> Result<(), Refusal> {
        self.inner.erase(at)
    }
}
