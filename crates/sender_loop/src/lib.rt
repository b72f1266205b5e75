// The closed loop of a sender and a head (02, E1).
#![tactic(auto)]

ghost use Rattle.sender_loop.specs.Loop.{EveryLoad};

// Of every load and every head: a claim about the definitions, and a function that does nothing.
pub fn every_load()
    ensures { EveryLoad }
{}
