//! What follows from the definition of the search machine alone.
ghost use Rattle.search.specs.Laws.{HistoriesEnd, MovesOn, TrailsRise};

/// The trail, read as digits to base 3 (0 for none, 1 for a decided literal, 2 for an implied one), rises at each move.
pub fn trails_rise()
    ensures { TrailsRise }
{}

/// No history of a formula has 3 to the number of its variables moves.
pub fn histories_end()
    ensures { HistoriesEnd }
{}

/// From the end of a history, where it isn't finished, a move leads on.
pub fn moves_on()
    ensures { MovesOn }
{}
