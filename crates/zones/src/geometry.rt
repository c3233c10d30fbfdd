// The numbers that forming fixes.
ghost use Rattle.std.specs.Prelude.{◌≡◌, ◌+◌, ◌*◌, ◌<◌, ◌≤◌, ◌↔◌, true, IsTrue, IfSome, IfNone};
ghost use Rattle.flatcard.specs.Calls.{bad_shape, is_width};
ghost use Rattle.flatcard.specs.Card.{capacity, start, survey, zones};
ghost use Rattle.zones.specs.Tables.{FitsTables};

use flash::Flash;

// The most zones that may be open or threaded together, the banks that a zone is striped over (its width),
// the blocks of a bank, the pages of a block (its depth), and the number of chip groups: plain numbers, with one fact about them.
#[derive(Clone, Copy)]
pub struct Geometry {
    pub limit: usize,
    pub width: usize,
    pub blocks: usize,
    pub depth: usize,
    pub chips: usize,
    ghost fits: { FitsTables limit width blocks depth chips },
}

// Whether a zone may be striped over so many banks.
fn is_width(width: usize) -> bool
    ensures { result ≡ is_width width }
{
    matches!(width, 1 | 2 | 4 | 8 | 16)
}

impl Geometry {
    ghost use Rattle.zones.specs.Geometries.{geometry_of, Fitting};

    // The numbers of a card on a flash, or none where they do not fit it.
    pub(crate) fn on<F: Flash>(flash: &F, limit: usize, width: usize) -> Option<Geometry>
        ensures fits { IfSome result (Fitting (F.Flash.memory flash.now) limit width) }
        ensures unfit { IfNone result (bad_shape (survey (F.Flash.memory flash.now)) limit width ≡ true) }
    {
        let shape = flash.shape();
        if !(1..=4).contains(&limit) || !is_width(width) {
            return None;
        }
        if !shape.banks.is_multiple_of(width) || shape.banks == 0 || shape.blocks <= limit {
            return None;
        }
        let chips = shape.banks / width;
        if chips * shape.blocks > 64 {
            return None;
        }
        Some(Geometry {
            limit,
            width,
            blocks: shape.blocks,
            depth: shape.pages,
            chips,
        })
    }

    // The sectors of a zone.
    pub(crate) fn capacity(self) -> usize
        ensures answer { result ≡ capacity (geometry_of self) }
        ensures bound { result ≤ 4096 }
    {
        4 * self.width * self.depth
    }

    // How many zones the card has.
    pub(crate) fn zones(self) -> usize
        ensures answer { result ≡ zones (geometry_of self) }
        ensures bound { result ≤ 64 }
    {
        self.chips * (self.blocks - self.limit)
    }

    // Whether the card has so many zones from the first on.
    pub(crate) fn has_zones(self, first: usize, count: usize) -> bool
        ensures { IsTrue result ↔ (first + count ≤ zones (geometry_of self)) }
    {
        first
            .checked_add(count)
            .is_some_and(|end| end <= self.zones())
    }

    // The address of a zone's first sector.
    pub(crate) fn start(self, zone: usize) -> usize
        requires { zone < zones (geometry_of self) }
        ensures answer { result ≡ start (geometry_of self) zone }
        ensures bound { result ≤ 64 * 4096 }
    {
        zone * self.capacity()
    }
}
