//! Automata of patterns, proved once for every truth and every meaning of steps.
//!
//! An automaton reads a path state by state. [`build`] unrolls a pattern into a tree over the numbers of its letters (a
//! position automaton: Glushkov 1961, McNaughton and Yamada 1960), [`begin`] takes the first state, [`advance`] one more
//! step in the worlds where its guard holds, and [`accepted`] answers a bit that holds in a world exactly where some
//! segment that the anchors allow matches the pattern on that world's path. Over `Plain` this measures a recorded run;
//! over a `Circuit` the same code describes all runs at once.
//!
//! The crate stands on `patterns`, whose `Match` it meets, on `circuit`, whose law of `Truth` it uses, and on
//! `containers`. The definitions are in specs/: `Standing` (what a reach says of a path), `Still` (a reach after other
//! gates) and those of the unrolled tree and of one step. The layers above use the contracts of these calls: what
//! `accepted` answers, and that a call uses at most 8 times the square of the pattern's letters plus 2 wires. Start at
//! [`build`] in construction.rt and the other three calls in reach.rt.
#![tactic(auto)]

mod construction;
mod enter;
mod guard;
mod idle;
mod join;
pub mod laws;
mod leaf;
mod meaning;
mod nfa;
mod node;
mod part;
mod pass;
mod reach;
mod reach_bits;
mod step;
mod unroll;

pub use construction::build;
pub use meaning::StepMeaning;
pub use nfa::Nfa;
pub use reach::{Reach, accepted, advance, begin, is_settled};
