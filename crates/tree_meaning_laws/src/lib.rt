//! The modules `temporaries_apart`, `expression_laws`, `statement_laws`, `for_steps` and `tree_laws`, none of which
//! stands on one behind it.
//!
//! - [`temporaries_apart`]: Where the cells of a typed function's frame lie.
//! - [`expression_laws`]: That what is made of an expression does what the expression means.
//! - [`statement_laws`]: That what is made of a statement does what the statement means.
//! - [`for_steps`]: What follows the passes of a `for`.
//! - [`tree_laws`]: That the meaning on the tree and the automaton agree.
#![tactic(auto)]

pub mod expression_laws;
pub mod for_steps;
pub mod statement_laws;
pub mod temporaries_apart;
pub mod tree_laws;
