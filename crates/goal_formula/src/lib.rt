//! The formula of a goal: its models are the inputs whose runs within the bounds hit the goal.
//!
//! Start at [`formula`] in exact.rt. An unwinding of `unwinder` tells of the runs of all inputs at once, entry by entry, over
//! a circuit. The pattern automata of the goal and of the passing clause (`automata`) are taken along these entries
//! (`matching.rt`), each entry in the worlds in which its guard holds, and joined with the ends of the runs that count
//! (`hitting.rt`). So one literal of the circuit holds in the world of an input exactly where its run stays within the bounds
//! and hits the goal. Its clause form (`clause_form`) is the goal's formula, with the variable of each input bit
//! (`encoding.rt`), as [`literal_formula`] gives it of any literal of an unwinding; [`input_of`] makes the input of a model.
//! The gates of a goal are cut off again, so that the unwinding serves the next goal as it served this one. No formula of a
//! goal has 2^30 variables (`laws.rt`).
//!
//! The definitions are in specs/: `Exact` (when a formula is exact for a goal), `Forms` (the formula of a literal), `Bits`
//! (which variable is which input bit, and the input of an assignment), `Sizes` (how large a goal is, and its refusal), `Hitting` and `Steps` (what the entries of an
//! unwinding tell of a goal), and for the parts below `Parts`.
#![tactic(auto)]

mod encoding;
mod exact;
mod goal;
mod hitting;
pub mod laws;
mod matching;
mod model;
mod size;
mod step;

pub use encoding::literal_formula;
pub use exact::{formula, is_goal_too_large};
pub use goal::GoalFormula;
pub use model::input_of;
