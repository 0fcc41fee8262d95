//! Recorded runs of a control flow automaton.
//!
//! It stands on `c_meaning` for the state in which a run begins and the step from each state to the next, and on `cfa`
//! for automata, states and predicates. The layers above use the contract of `trace_run`: the path that
//! `specs/Paths.antt` says, exactly, which records the states of its input up to a limit; want of memory is the one free
//! answer. `laws` says that a path that isn't cut is the whole run, and `RunEnd::is_counted` whether a run counts.
//! Start at running.rt.
#![tactic(auto)]

mod answers;
pub mod laws;
mod masks;
mod path;
mod running;

pub use c_meaning::{Ends, Input, Trap};
pub use path::{PathRecord, RunEnd};
pub use running::trace_run;
