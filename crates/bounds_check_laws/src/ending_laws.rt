//! What follows for the ends of runs where inputs don't leave bounds, and where goals are refuted (ISO/IEC 9899:2011,
//! 5.1.2.3; FQL: Holzer, Schallhart, Tautschnig, Veith, VMCAI 2009 and ASE 2010).
//!
//! It has no code. `specs/ending_laws/Ends` says that the states of an input end soon, `specs/ending_laws/Asking` which plans ask at which nodes runs
//! end, and `specs/ending_laws/Laws` has the laws. It stands on `reached` for the pairs that walks within bounds come to, and on
//! `run_laws` for inputs that leave bounds.

ghost use Rattle.bounds_check_laws.specs.ending_laws.Laws.{BoundedRunsAreShort, StayingInputsEnd, StayingInputsEndSoon, KeptNodesAsk, AllNodesAsk, CountedEndsReturn, NoRunTimeError, EachRunReturns};

/// A beginning of a run within bounds has fewer edges than there are pairs that are reached within them.
pub fn bounded_runs_are_short()
    ensures { BoundedRunsAreShort }
{}

/// The states of an input that doesn't leave the bounds end, after fewer edges than there are pairs.
pub fn staying_inputs_end()
    ensures { StayingInputsEnd }
{}

/// After fewer than 50,000 edges, where there are no more pairs than this.
pub fn staying_inputs_end_soon()
    ensures { StayingInputsEndSoon }
{}

/// A clause `NODES(..)$` asks for each end where its filter keeps each node that control can come to but the entry's exit.
pub fn kept_nodes_ask()
    ensures { KeptNodesAsk }
{}

/// `cover NODES(ID)$` asks for each end.
pub fn all_nodes_ask()
    ensures { AllNodesAsk }
{}

/// Where each other end is refuted, the states of an input that end in a way that is counted end in a return.
pub fn counted_ends_return()
    ensures { CountedEndsReturn }
{}

/// Where traps are counted, no input's states end in a trap then.
pub fn no_run_time_error()
    ensures { NoRunTimeError }
{}

/// Where any end is counted, every input's states end in a return then.
pub fn each_run_returns()
    ensures { EachRunReturns }
{}
