// The state of typing, and what an expression is.
use crate::faults::Found;
use crate::scopes::{Cases, Names, Scopes};
use c_typed_trees::TypedExpr;
use cfa::Variable;
use containers::Vector;

/// What an expression stands for.
#[derive(Drop)]
pub enum Sort {
    Value(TypedExpr),
    Array(Variable),
    /// A function, or a call without a result.
    Other,
}

/// What a call is given: words for the parameters that are integers, and arrays for the others.
#[derive(Drop)]
pub struct Given {
    pub words: Vector<TypedExpr>,
    pub arrays: Vector<Variable>,
}

/// The names and labels that are there, the level of the innermost scope, the numbers of the next local's cell and of the
/// next temporary, and the first fault so far.
#[derive(Drop)]
pub struct Typer {
    pub bound: Scopes,
    pub labels: Names,
    /// Those of the innermost `switch`.
    pub cases: Cases,
    /// That of the file is 0.
    pub level: u32,
    /// Outside of all functions, that of the next global.
    pub local: u32,
    pub temporary: u32,
    pub fault: Option<Found>,
}
