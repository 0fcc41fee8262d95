//! Whether a recorded path has a match of a pattern, by the pattern's automaton.
//!
//! The definition is in specs/: `Segments` says when some segment of a path that the anchors allow matches a pattern, by
//! `patterns`' `Match` alone. [`has_match`] takes a path through an automaton of `automata`, over `circuit`'s `Plain`, and
//! stops as soon as no step can change the answer. The layers above use its contract, and [`RunPath`], a path that is
//! borrowed from where it was recorded. Start at matching.rt.

mod matching;
mod recorded_step;
mod run_path;

pub use matching::has_match;
pub use run_path::RunPath;
