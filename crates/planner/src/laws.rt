//! Laws of drawing: the contract of each function here is proved of the definitions, and there is nothing to compute.
ghost use Rattle.planner.specs.FillLaws.{BottomLevelInWords, BottomLevelsFall, FillTakesInOrder, TakenWhenReady, PlacedWhereFirst, RefusedByAll};
ghost use Rattle.planner.specs.Laws.{AnsweredIsTaken, RefusedChangesNothing, DisorderComesFirst};
ghost use Rattle.planner.specs.OrderInWords.{TestedInWords};
ghost use Rattle.planner.specs.UndoLaws.{PlacingKeepsOrder, TakeBackUndoesPlace};

/// What a refusal leaves, and which one comes first.
pub fn refusal_laws()
    ensures changes_nothing { RefusedChangesNothing }
    ensures disorder_first { DisorderComesFirst }
{}

/// When sheet, plan and timetable belong together.
pub fn order_law()
    ensures { TestedInWords }
{}

/// What is asked for can be booked.
pub fn booking_law()
    ensures { AnsweredIsTaken }
{}

/// Which task fill takes next, and where it places it.
pub fn fill_laws()
    ensures bottom_level { BottomLevelInWords }
    ensures falls { BottomLevelsFall }
    ensures order { FillTakesInOrder }
    ensures ready { TakenWhenReady }
    ensures place { PlacedWhereFirst }
    ensures refusal { RefusedByAll }
{}

/// What placing and taking back do to a state that is in order.
pub fn undo_laws()
    ensures keeps_order { PlacingKeepsOrder }
    ensures undoes { TakeBackUndoesPlace }
{}
