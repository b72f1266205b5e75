// A claim about the rules, as the contract of a function that does nothing: the trial cases that 01 marks P, P1 to P12, and two of its slips. The rules give
// what 01 says in every case of the table in specs/.
#![tactic(auto)]

ghost use Rattle.cases_rules.specs.Trials.{table, Agree};

pub fn cases_agree()
    ensures { Agree table }
{}
