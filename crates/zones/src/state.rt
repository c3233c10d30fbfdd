// The state of a zone, as a report shows it.
ghost use Rattle.std.specs.Prelude.{◌≡◌};
ghost use Rattle.zones.specs.Numbers.{state_number};

#[derive(Clone, Copy, Default, PartialEq, Eq, Debug)]
pub enum State {
    #[default]
    Empty = 0,
    Open = 1,
    Full = 2,
    Threaded = 3,
}

// The number by which hosts know the state.
impl From<State> for usize {
    ghost from_gives = { λ state n. n ≡ state_number state };

    fn from(state: State) -> usize {
        state as usize
    }
}
