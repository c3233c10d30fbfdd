// The shapes that a chip can have.
ghost use Rattle.std.specs.Prelude.{◌≡◌};
ghost use Rattle.chips.specs.Shapes.{shape_fits};

use flash::Shape;

// Whether a flash with banks can have the shape.
pub(crate) fn shape_fits(shape: Shape) -> bool
    ensures { result ≡ shape_fits shape }
{
    (1..=16).contains(&shape.banks)
        && (1..=64).contains(&shape.blocks)
        && (1..=64).contains(&shape.pages)
}
