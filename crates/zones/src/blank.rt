// Whether pages stand on a flash.
ghost use Rattle.std.specs.Prelude.{◌≡◌};
ghost use Rattle.flatcard.specs.Card.{survey};
ghost use Rattle.flatcard.specs.Verbs.{printed};
ghost use Rattle.zones.specs.Blank.{bank_stands, stands};

use flash::{BlockAddress, Flash, Shape};

// Whether a page stands in a block.
fn block_printed<F: Flash>(flash: &F, at: BlockAddress) -> bool
    ensures { result ≡ stands (F.Flash.memory flash.now) at.bank at.block }
{
    flash.standing(at).is_some_and(|count| count > 0)
}

// Whether a page stands in a bank of a flash of that shape.
fn bank_printed<F: Flash>(flash: &F, bank: usize, shape: Shape) -> bool
    ensures { result ≡ bank_stands (F.Flash.memory flash.now) shape bank }
{
    (0..shape.blocks).any(|block| block_printed(flash, BlockAddress { bank, block }))
}

// Whether a page stands anywhere: each block is asked once, up to the first with a standing page.
pub(crate) fn printed<F: Flash>(flash: &F) -> bool
    ensures { result ≡ printed (survey (F.Flash.memory flash.now)) }
{
    let shape = flash.shape();
    (0..shape.banks).any(|bank| bank_printed(flash, bank, shape))
}
