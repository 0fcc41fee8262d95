//! Laws of the definitions in specs/. Each function does nothing: its contract is the law.
ghost use Rattle.tree_events.specs.Laws.{EndsAreThose, EnoughTurnsTellAll, MoreTurnsTellMore};

/// Events left out, a run ends as `tree_meaning` says.
pub fn ends_are_those()
    ensures { EndsAreThose }
{}

/// With more turns the same happens first.
pub fn more_turns_tell_more()
    ensures { MoreTurnsTellMore }
{}

/// Where so many turns are enough, nothing more happens with more.
pub fn enough_turns_tell_all()
    ensures { EnoughTurnsTellAll }
{}
