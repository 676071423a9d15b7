// Lists of calls that meet every supposition of demand 3, and what they come to, as one proved statement.
#![tactic(auto)]

ghost use Rattle.worked_histories.specs.Examples.{Examples};

pub fn worked_histories()
    ensures { Examples }
{}
