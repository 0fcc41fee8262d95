//! The modules `table_laws`, `covered_laws` and `path_events`, none of which stands on one behind it.
//!
//! - [`table_laws`]: What the table of the automaton says of the marks of each edge.
//! - [`covered_laws`]: What is covered, by the trees.
//! - [`path_events`]: Laws of recorded runs.
#![tactic(auto)]

pub mod covered_laws;
pub mod path_events;
pub mod table_laws;
