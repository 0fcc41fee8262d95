//! That what is made of a statement does what the statement means: `tree_meaning` on the tree, and `c_meaning` along the nodes
//! and edges that `graph_of` makes of it.
//!
//! `specs/statement_laws/Simulates.antt` says what it is that nodes and edges do what a meaning says, `Steps` which trees a `for` has behind
//! its passes. The law is the contract of a function with an empty body.

pub mod laws;
