//! That what is made of an expression does what the expression means: `tree_meaning` on the tree, and `c_meaning` along the
//! nodes and edges that `graph_of` makes of it.
//!
//! `specs/expression_laws/Contexts.antt` relates a store of the tree's meaning to a state of the automaton: variables hold the same in both,
//! and a temporary of the automaton holds a value that is still wanted, or nothing that matters. `Follows` says what it is
//! that a run does what was done, `Flows` that what is made of an expression does what it means. The law is the contract of a
//! function with an empty body.

pub mod laws;
