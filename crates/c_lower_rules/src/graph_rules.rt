//! The law that the automaton of a typed unit meets the rules of automata, where the unit fits.
//!
//! It stands on `graph_of` for the table, on `c_typed_trees` for which units fit, and on `cfa` for the rules. It has no code:
//! the contract of `laws` is the law. proofs/ goes over the rows of the table twice: `Ways` and its kin count the ways that
//! lead on from each node, `Sits` and its kin show that each node, edge and scope meets its rules where it sits, and
//! `ValueTrees` and `StatementTrees` take both to all trees.

pub mod laws;
