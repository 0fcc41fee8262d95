//! What happens in a run of a function, by the typed trees of its unit: a list of events, of what is done and decided, in the
//! words of ISO/IEC 9899:2011, 6.5 and 6.8. Nothing here speaks of an automaton.
//!
//! The definitions stand beside those of `tree_meaning`, row by row: `specs/Outcomes.antt` has what is done with the events of it,
//! `Expressions`, `Statements`, `Loops`, `Switch` and `Calls` each form, `Trees` gives each tree what happens in it, and `Runs` says
//! what happens in a run. That both meanings end alike is a law (`laws`). Events are those of `edge_events`, which says what an
//! edge of the automaton tells.
//!
//! It has these modules too:
//!
//! - [`edge_events`]: What the edges of a control flow automaton tell of a run that takes them.
#![tactic(auto)]

pub mod edge_events;
pub mod laws;
