//! Lessons that goals share: clauses over the wires of an unwinding's circuit that hold in every world, each learned from the
//! refutation of a goal's formula and given to the formulas of other goals.
//!
//! It stands on `circuit` and `cnf`, and on `goal_formula`, in whose formulas the wires of the unwinding have variables. A
//! refutation's last chain begins, as a rule, with resolutions of clauses of the unwinding's gates alone: what they come to,
//! often that two guards exclude each other, says nothing of the goal. [`Lessons::learn`] keeps that clause, over wires: each
//! clause that it stands on is found to be one of a gate of the circuit, a lesson, or a line that stands on such clauses alone.
//! [`Lessons::given`] answers a goal's formula with the lessons whose wires it has behind its own clauses. The layers above use
//! that lessons hold in every world (specs/Store.antt), so that an assignment that satisfies the goal's formula satisfies it
//! with lessons, and the other way round.
//!
//! Start at `Lessons` in lesson.rt.
#![tactic(auto)]

mod gates;
mod giving;
mod held;
mod known;
mod learning;
mod lesson;
mod naming;
mod refutation;

pub use giving::Given;
pub use lesson::Lessons;
pub use refutation::Refutation;
