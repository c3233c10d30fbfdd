// The worked cases of the model and of the layers, as one joint statement.
#![tactic(auto)]

ghost use Rattle.cases.specs.Cases.{WorkedCases};

// The worked cases hold of the very definitions that the contracts of the card and of the layers cite.
pub fn worked_cases_hold()
    ensures { WorkedCases }
{}
