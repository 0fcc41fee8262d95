// What is made, and what it is made within.
use cfa::{CellPlace, Edge, Expr, Node, Scope, StatementKind};
use containers::Vector;
use fq_core::{Name, Span};

/// Nodes, edges and scopes that are made.
#[derive(Drop)]
pub struct Parts {
    pub nodes: Vector<Node>,
    pub edges: Vector<Edge>,
    pub scopes: Vector<Scope>,
}

/// A value where control is, and the names of the variables that it is read from.
#[derive(Drop)]
pub struct Operand {
    pub value: Expr,
    pub reads: Vector<Name>,
}

/// A cell, and the names of the variables that its index is read from.
#[derive(Drop)]
pub struct Target {
    pub place: CellPlace,
    pub reads: Vector<Name>,
}

/// What a statement or an expression stands in.
#[derive(Drop)]
pub struct Around {
    /// The number of its function.
    pub function: u32,
    /// The number of its scope, and the variables that it sees, the innermost first.
    pub scope: u32,
    pub sees: Scope,
    /// How many loops it lies in.
    pub depth: u32,
    /// The nodes that `return`, `break` and `continue` lead to.
    pub exit: u32,
    pub on_break: u32,
    pub on_continue: u32,
    /// The first token of the innermost statement, and its kind.
    pub span: Span,
    pub statement: StatementKind,
    /// Within the condition of a decision, the two nodes that the innermost one leads to.
    pub decision: Option<(u32, u32)>,
}
