//! The table that makes the control flow automaton of a typed unit: what a certifier believes of it.
//!
//! It stands on `c_typed_trees` for the trees, on `cfa` for the automaton, and on `cfa_order` for the law of ordered
//! graphs. It has no code but the types of what is made. `specs/graph_of/GraphOf.antt` has the definition, whose rows are those
//! of docs/GRAPH.md: `Builder` for lists of nodes, edges and scopes that are made one after another, `Edges`,
//! `Expressions`, `Statements` and `Switch` for the rows, `Table` for the forms of statements. `laws` says that such a
//! graph is once. Start at specs/graph_of/GraphOf.antt.

pub mod laws;
mod parts;

pub use parts::{Around, Operand, Parts, Target};
