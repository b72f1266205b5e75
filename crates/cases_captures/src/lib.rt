// A claim about the text for a capture, as the contract of a function that does nothing: 01's own captures have 01's texts, and
// captures for its other sentences theirs.
#![tactic(auto)]

ghost use Rattle.cases_rules.specs.Trials.{Agree};
ghost use Rattle.cases_captures.specs.Samples.{sample_table};

pub fn samples_agree()
    ensures { Agree sample_table }
{}
