//! The modules `ending_laws`, `asked_ends`, `plain_returns` and `tree_ending_laws`, none of which stands on one behind
//! it.
//!
//! - [`ending_laws`]: What follows for the ends of runs where inputs don't leave bounds, and where goals are refuted.
//! - [`asked_ends`]: Which query asks whether runs end, at each node.
//! - [`plain_returns`]: The automaton of a unit puts what a call gives into plain cells alone.
//! - [`tree_ending_laws`]: How a function ends by the meaning of its trees, with how many turns, where inputs don't
//!   leave bounds and where ends are refuted.
#![tactic(auto)]

pub mod asked_ends;
pub mod ending_laws;
pub mod plain_returns;
pub mod tree_ending_laws;
