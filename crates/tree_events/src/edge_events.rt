//! What the edges of a control flow automaton tell of a run that takes them: events of the sources.
//!
//! It stands on `cfa` and `fq_core`. `event.rt` has the events, which know neither nodes nor edges: a condition is decided, a
//! simple statement is done, a function is entered or left, and those that only mark the way. `specs/edge_events/Told.antt` says which
//! events an edge tells, by the edge alone, and `told` computes them. What a run does by the trees, as a list of the same
//! events, is defined in `tree_events`.

mod event;
mod telling;

pub use event::{Event, What};
pub use telling::told;
