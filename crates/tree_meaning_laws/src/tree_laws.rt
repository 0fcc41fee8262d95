//! That the meaning on the tree and the automaton agree: on every typed unit, entry and input a run of `graph_of`'s automaton
//! ends as `tree_meaning` says, and the other way round.
//!
//! `specs/tree_laws/Laws.antt` has the statement. The law is the contract of a function with an empty body.

pub mod laws;
