// The model of the card: the flat card and its seven calls are definitions in specs/, without code.
// The functions here carry what is proved of those definitions.
#![tactic(auto)]

ghost use Rattle.flatcard.specs.Cases.{WorkedCases};
ghost use Rattle.flatcard.specs.Laws.{Laws};

// The worked cases hold of the definitions that the contracts of the card cite. The crate `cases` has them as a part of its own
// statement; they are carried here too, so that this crate is not proved without them.
pub fn worked_cases_hold()
    ensures { WorkedCases }
{}

// The laws of the flat card hold, for every card and every call.
pub fn laws_hold()
    ensures { Laws }
{}
