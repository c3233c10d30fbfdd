// What the card keeps of a zone.
ghost use Rattle.std.specs.Prelude.{◌≡◌, ◌≤◌};
ghost use Rattle.zones.specs.Phases.{phase_state};

use crate::state::State;
use flash::PAGE;

// What a zone is doing, with the block group that it fills or has filled, and the old one that it is threaded over.
#[derive(Clone, Copy)]
pub enum Phase {
    Empty,
    Open { group: usize },
    Full { group: usize },
    Threaded { group: usize, old: usize },
}

// The state that a report shows.
impl From<Phase> for State {
    ghost from_gives = { λ phase state. state ≡ phase_state phase };

    fn from(phase: Phase) -> State {
        match phase {
            Phase::Empty => State::Empty,
            Phase::Open { .. } => State::Open,
            Phase::Full { .. } => State::Full,
            Phase::Threaded { .. } => State::Threaded,
        }
    }
}

// A zone: its phase, its write pointer as an offset, and the number of its slot. It has one only while it is open or
// threaded. The number stands beside the phase, and not in it: what an open and a threaded
// zone have alike is said once.
#[derive(Clone, Copy)]
pub struct Zone {
    pub phase: Phase,
    pub pointer: usize,
    pub slot: Option<usize>,
    // the longest zone has 4,096 sectors: 16 banks of 64 pages
    ghost reach: { pointer ≤ 4096 },
}

impl Zone {
    // A constant, and no `Default`: of a table that a call fills, the proofs do not close.
    pub const EMPTY: Zone = Zone {
        phase: Phase::Empty,
        pointer: 0,
        slot: None,
    };
}

// What a zone needs while it is open or threaded: the page that it is filling, and the map of its kept sectors, a bit
// for each sector of the longest zone.
#[derive(Clone, Copy)]
pub struct Slot {
    pub page: [u8; PAGE],
    pub map: [u8; 512],
}

impl Slot {
    // A constant, as `Zone::EMPTY` is.
    pub const BLANK: Slot = Slot {
        page: [0; PAGE],
        map: [0; 512],
    };
}
