//! The modules `reached`, `unwinding_size` and `reached_laws`, none of which stands on one behind it.
//!
//! - [`reached`]: The pairs of node and context that walks from a function's entry reach within bounds, guards ignored,
//!   and the steps between them.
//! - [`unwinding_size`]: The size sum of a bounded unwinding.
//! - [`reached_laws`]: Counts of what walks reach within bounds.
#![tactic(auto)]

pub mod reached;
pub mod reached_laws;
pub mod unwinding_size;
