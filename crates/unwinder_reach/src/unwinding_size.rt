//! The size sum of a bounded unwinding: what the pairs that are reached weigh, from which the wires of the unwinding are
//! bounded before one is made.
//!
//! It stands on `reached` for the pairs and their steps, on `cfa` for automata and predicates, and on `sym_expr` for what
//! expressions weigh. [`size_of_unwinding`] answers the sum, or refuses with code 81 where it passes 4,194,304. The
//! definition is in specs/unwinding_size/Sizes. Start at size.rt.

mod capped;
mod expressions;
mod operations;
mod pairs;
mod scopes;
mod size;
mod tally;

pub use operations::node_weights;
pub use size::size_of_unwinding;
