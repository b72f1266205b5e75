// Demand 3 (00), of every list of calls.
#![tactic(auto)]

ghost use Rattle.session_merging.specs.Merging.{EveryList};

// Demand 3 of every list of items, also of such as no memory holds: a claim about the rules, and a function that does nothing.
pub fn every_list()
    ensures { EveryList }
{}
