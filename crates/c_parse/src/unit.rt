// The trees of items.
use crate::expr::{ExprTree, Ident};
use crate::statement::{Declarator, Statement};
use c_values::Kind;
use containers::Vector;
use fq_core::Span;

/// A translation unit (6.9).
#[derive(Drop)]
pub struct Unit {
    pub items: Vector<Item>,
}

/// A function, or a declaration outside of all functions.
#[derive(Drop)]
pub enum Item {
    /// A function that is declared or defined (6.9.1). No result is `void`.
    Function {
        span: Span,
        result: Option<Kind>,
        name: Ident,
        parameters: Vector<Parameter>,
        body: Option<Body>,
    },
    Variables {
        span: Span,
        kind: Kind,
        list: Vector<Declarator>,
    },
    /// The constants of an `enum`, with the values that are given (6.7.2.2).
    Constants {
        span: Span,
        list: Vector<(Ident, Option<ExprTree>)>,
    },
}

/// A parameter of a function; it is an array where it has a length.
#[derive(Drop)]
pub struct Parameter {
    pub span: Span,
    pub kind: Kind,
    pub name: Option<Ident>,
    pub length: Option<ExprTree>,
}

/// The block of a defined function, with the span of its closing brace.
#[derive(Drop)]
pub struct Body {
    pub statements: Vector<Statement>,
    pub close: Span,
}
