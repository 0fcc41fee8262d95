//! The control flow automaton of a program: its nodes, its edges with their operations, its functions and scopes.
//!
//! It stands on `fq_core` for names and spans, on `c_values` for the arithmetic of C's integers, and on `containers`.
//! `Graph::new` accepts exactly the parts that meet the rules of `IsGraph`, and each holder of a `Graph` has them.
//! Beside the types stand the definitions that the layers above share: values of expressions, contexts and the edges
//! between them, walks, states of a graph, and predicates that go with it.
#![tactic(auto)]

mod edge;
mod expr;
mod fault;
mod graph;
pub mod laws;
mod name_tree;
mod names;
mod parts;
mod rest;
mod rules;
mod state;
mod variables;
mod ways;

pub use c_values::{BinaryOp, UnaryOp};
pub use expr::{ArrayPlace, CellPlace, Expr};
pub use fault::GraphFault;
pub use fq_core::StatementKind;
pub use graph::Graph;
pub use parts::{
    Edge, Function, GraphParts, InputFunction, Node, Operation, Scope, Variable, VariablePlace,
};
pub use rules::{FunctionRoom, checked_kind};
pub use state::{Frame, Predicates, SharedExpr, State, Trap};
pub use variables::Variables;
