// What the card answers.
ghost use Rattle.std.specs.Prelude.{◌≡◌};
ghost use Rattle.zones.specs.Numbers.{refusal_number};

// Why the card refuses a call. The first that applies, in the order of the call's checks, is the answer.
#[derive(Clone, Copy, PartialEq, Eq, Debug)]
pub enum CardRefusal {
    // the card is not formed yet
    Unformed,
    // the card is formed already
    Formed,
    // the numbers of the form do not fit the flash
    Shape,
    // a page of the flash stands
    Printed,
    // the bytes, the map or the list have a wrong length
    Length,
    // there is no such address, zone or offset
    Range,
    // the zone is not in the state that the call needs
    State,
    // the write does not begin at the write pointer
    Pointer,
    // the write meets a kept sector
    Kept,
    // as many zones as allowed are open or threaded
    OpenLimit,
    // no group is free
    NoGroup,
}

// The number by which hosts know the refusal. The refusals stand in the order of their numbers, from 11 on; by `as` a refusal gives its
// place in that order, from 0 on, as a table of texts needs it.
impl From<CardRefusal> for usize {
    ghost from_gives = { λ refusal n. n ≡ refusal_number refusal };

    fn from(refusal: CardRefusal) -> usize {
        refusal as usize + 11
    }
}

// What an accepted call did: pages programmed, sectors copied by the card itself, and blocks erased.
#[derive(Clone, Copy, Default, PartialEq, Eq, Debug)]
pub struct Done {
    pub programmed: usize,
    pub copied: usize,
    pub erased: usize,
}
