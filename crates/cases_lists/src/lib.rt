// A claim about the rules, as the contract of a function that does nothing: lists of calls, two that jump, some that a faulty byte
// ends, and one with no opening.
#![tactic(auto)]

ghost use Rattle.cases_rules.specs.Trials.{Agree};
ghost use Rattle.cases_lists.specs.Lists.{list_table};

pub fn lists_agree()
    ensures { Agree list_table }
{}
