// A claim about the rules, as the contract of a function that does nothing: the table of answer numbers, when each is due and what it
// returns and leaves.
#![tactic(auto)]

ghost use Rattle.cases_answers.specs.Rows.{RowsHold};

pub fn rows_hold()
    ensures { RowsHold }
{}
