//! Cases that were worked out by hand: each contract here is proved by computing, and there is nothing to run.
ghost use Rattle.planner.specs.Cases.{WorkedPlan, WorkedTransfers, WorkedUndoing, WorkedJoin, WorkedFill, WorkedTies, WorkedRefusals, WorkedOrderOfTests, WorkedDisorder, WorkedNotInOrder};

/// Three tasks on three machines in a row.
pub fn worked_plan()
    ensures plan { WorkedPlan }
    ensures transfers { WorkedTransfers }
    ensures join { WorkedJoin }
{}

/// What is taken back or struck leaves what was before.
pub fn worked_undoing()
    ensures { WorkedUndoing }
{}

/// What fill makes of a blank sheet and of a begun one.
pub fn worked_fill()
    ensures fill { WorkedFill }
    ensures ties { WorkedTies }
{}

/// One refusal for each cause, and which comes first.
pub fn worked_refusals()
    ensures causes { WorkedRefusals }
    ensures order { WorkedOrderOfTests }
{}

/// Sheets whose plan or timetable was changed behind their back.
pub fn worked_disorder()
    ensures states { WorkedDisorder }
    ensures calls { WorkedNotInOrder }
{}
