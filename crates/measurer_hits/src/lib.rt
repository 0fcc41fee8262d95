//! The modules `run_match`, `hits` and `run_laws`, none of which stands on one behind it.
//!
//! - [`run_match`]: Whether a recorded path has a match of a pattern, by the pattern's automaton.
//! - [`hits`]: When the run of an input hits a goal of a plan.
//! - [`run_laws`]: What follows from the definitions of runs.
#![tactic(auto)]

pub mod hits;
pub mod run_laws;
pub mod run_match;
