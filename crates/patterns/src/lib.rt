//! Regular patterns over the nodes, edges and predicates of a path, and what it means that a segment matches one.
//!
//! A [`Pattern`] is made of letters by sequence, choice and bounded or unbounded repetition, as in FQL (Holzer,
//! Schallhart, Tautschnig, Veith: VMCAI 2009, ASE 2010). A segment of a path goes from one state to a later one or the
//! same. A node letter, a predicate or an absent predicate matches a state alone, an edge letter one edge, and a sequence splits its
//! segment at a shared state.
//!
//! The definitions are in specs/: `Match` (a segment matches a pattern, by splits), `Letters` (a pattern as plain data and
//! its count of letters) and `Paths` (a recorded path). The layers above use that [`letters`] is that count, and that
//! [`matches`], the plain and slow program beside the automata, is `Match`. The crate stands on `containers` and `fq_core`.
#![tactic(auto)]

mod letter;
mod number_set;
mod path_view;
mod pattern;
mod places;
mod reading;

pub use letter::Letter;
pub use number_set::NumberSet;
pub use path_view::PathView;
pub use pattern::{Pattern, letters};
pub use reading::matches;
