//! Laws of the definitions in specs/. Each function does nothing: its contract is the law.
ghost use Rattle.c_meaning.specs.Laws.{BlockedStates, TooDeepStates, ReturnedStates, RunStates, BeginningStates, RunsByTheirEnds, OneRun, StepsFollow, RunsAreWalks, LongestByTheirEnds, OneLongest, RunsWithin};

/// A state of a graph is blocked exactly where the one edge that leaves its node is an assumption whose test is 0.
pub fn blocked_states()
    ensures { BlockedStates }
{}

/// A run is too deep exactly where the one edge that leaves its state's node is a call, and 64 frames stand.
pub fn too_deep_states()
    ensures { TooDeepStates }
{}

/// A run has returned exactly where its state is at its function's exit with one frame.
pub fn returned_states()
    ensures { ReturnedStates }
{}

/// The states of a run's beginning are states of the graph.
pub fn run_states()
    ensures { RunStates }
{}

/// The states of a run's beginning are the first ones of the input.
pub fn beginning_states()
    ensures { BeginningStates }
{}

/// A run's beginning is the whole run where what comes next of its last state is counted.
pub fn runs_by_their_ends()
    ensures { RunsByTheirEnds }
{}

/// An input has one run at most, whatever ends count.
pub fn one_run()
    ensures { OneRun }
{}

/// A step goes along the edge that is taken, from the pair of node and context of a state to that of the next.
pub fn steps_follow()
    ensures { StepsFollow }
{}

/// The pairs of node and context of a run are a walk, and each fits its state.
pub fn runs_are_walks()
    ensures { RunsAreWalks }
{}

/// A run's beginning within bounds is the longest one, where the run goes on to no state within them.
pub fn longest_by_their_ends()
    ensures { LongestByTheirEnds }
{}

/// An input has one longest beginning within bounds at most.
pub fn one_longest()
    ensures { OneLongest }
{}

/// The run of an input is within bounds exactly where it is the longest beginning within them.
pub fn runs_within()
    ensures { RunsWithin }
{}
