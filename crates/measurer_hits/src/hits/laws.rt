//! Laws of the definitions in specs/. Each function does nothing: its contract is the law.
ghost use Rattle.measurer_hits.specs.hits.Laws.{AbsentElsewhere, AbsentIsNegation, HitsByTheirPaths, OneListOfHits, PathsOfHits};

use path_runner::laws::{counted_paths, recorded_runs};

/// A recorded run has one list of the numbers of the goals that it hits.
pub fn one_list_of_hits()
    ensures { OneListOfHits }
{}

/// Where the path of an input up to a limit hits a goal, the input's run does.
pub fn hits_by_their_paths()
    ensures { HitsByTheirPaths }
{
    counted_paths();
}

/// Where an input's run hits a goal, so does its path up to each limit that is no less than the run's edges.
pub fn paths_of_hits()
    ensures { PathsOfHits }
{
    recorded_runs();
}

/// Where an expression has a value, the absent predicate of it says what the predicate of its negation says.
pub fn absent_is_negation()
    ensures { AbsentIsNegation }
{}

/// Where an expression is out of scope or traps, its predicate doesn't hold, so that the absent predicate does.
pub fn absent_elsewhere()
    ensures { AbsentElsewhere }
{}
