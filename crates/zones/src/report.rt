// A zone as a report shows it.
use crate::state::State;

// The state, the address of the first sector, and the address of the write pointer: plain values, which contracts name one by one.
#[derive(Clone, Copy, Default, PartialEq, Eq, Debug)]
pub struct ZoneReport {
    pub state: State,
    pub start: usize,
    pub pointer: usize,
}
