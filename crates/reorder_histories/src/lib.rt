// Whole lists of calls (document 01, "The lists of demand 3").
#![tactic(auto)]

ghost use Rattle.reorder_histories.specs.Histories.{HigherThresholdLosesNothing};
ghost use Rattle.reorder_histories.specs.Drained.{DrainsMeetDemand3};
ghost use Rattle.reorder_histories.specs.Made.{HistoriesLoseNothing};

// Demand 3: what a consumer with a lower threshold (document 01's patience) was served, one with a higher threshold was served too or still
// holds, and each position called missing for that one was called missing for the other. The definition says what is supposed of both.
pub fn higher_threshold_loses_nothing()
    ensures { HigherThresholdLosesNothing }
{}

// A drain of 32 that isn't refused leaves a buffer that waits, so consumers who are drained so after each offer are what demand 3 supposes
// unless an offer is answered 25.
pub fn drains_meet_demand_3()
    ensures { DrainsMeetDemand3 }
{}

// A call that keeps its promise is a step of a list, whatever makes it, so demand 3 holds of what two histories of such calls have come to.
pub fn histories_lose_nothing()
    ensures { HistoriesLoseNothing }
{}
