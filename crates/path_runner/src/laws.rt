//! Laws of the definitions in specs/. Each function does nothing: its contract is the law.
ghost use Rattle.path_runner.specs.Laws.{PathLengths, CutPaths, CountedEnds, CountedPaths, UncutPaths, RecordedRuns, LastingPaths};

/// A path has one more node than edges, and one more mask.
pub fn path_lengths()
    ensures { PathLengths }
{}

/// A path is cut exactly where it has as many edges as the limit says, and the run goes on from its last state.
pub fn cut_paths()
    ensures { CutPaths }
{}

/// A recorded run is counted by its end as the run is by what comes next of its last state.
pub fn counted_ends()
    ensures { CountedEnds }
{}

/// A path whose end is counted records the run of its input, all of its states.
pub fn counted_paths()
    ensures { CountedPaths }
{}

/// A path that isn't cut records the run of its input, where any end is counted.
pub fn uncut_paths()
    ensures { UncutPaths }
{}

/// The run of an input is its path at every limit that is no less than its edges.
pub fn recorded_runs()
    ensures { RecordedRuns }
{}

/// A path that isn't cut is the same at every greater limit.
pub fn lasting_paths()
    ensures { LastingPaths }
{}
