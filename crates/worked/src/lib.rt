// The worked cases of document 01 that are marked P, as one table under one proved statement.
#![tactic(auto)]

ghost use Rattle.worked.specs.Cases.{Cases};

pub fn worked_cases()
    ensures { Cases }
{}
