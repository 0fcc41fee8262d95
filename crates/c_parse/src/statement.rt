// The trees of statements.
use crate::expr::{ExprTree, Ident};
use c_values::{BinaryOp, Kind};
use containers::{Boxed, Vector};
use fq_core::Span;

/// What is assigned to: a variable, or an element of an array by its index.
#[derive(Drop)]
pub struct PlaceTree {
    pub name: Ident,
    pub index: Option<ExprTree>,
}

/// What a declared variable or array begins as (6.7.9).
#[derive(Drop)]
pub enum Initial {
    One(ExprTree),
    List(Vector<ExprTree>),
}

/// A declared name, the length of an array, and what it begins as (6.7.6).
#[derive(Drop)]
pub struct Declarator {
    pub name: Ident,
    pub length: Option<ExprTree>,
    pub first: Option<Initial>,
}

/// A `case` with its value, or `default` where there is none (6.8.1).
#[derive(Drop)]
pub struct CaseLabel {
    /// The span of the word `case` or `default`.
    pub span: Span,
    pub value: Option<ExprTree>,
}

/// The labels of a `switch` that stand in a row, and the statements after them.
#[cycle(statement)]
#[derive(Drop)]
pub struct Group {
    pub labels: Vector<CaseLabel>,
    pub body: Vector<Statement>,
}

/// A statement or a declaration in a block (6.8, 6.7).
#[cycle(statement)]
pub struct Statement {
    /// The span of its first token.
    pub span: Span,
    pub form: Form,
}

/// What a statement is made of.
#[cycle(statement)]
#[derive(Drop)]
pub enum Form {
    Block(Vector<Statement>),
    Empty,
    Local {
        kind: Kind,
        list: Vector<Declarator>,
    },
    /// `=` where there is no operator, and otherwise a compound assignment (6.5.16).
    Assign {
        place: PlaceTree,
        operator: Option<BinaryOp>,
        value: ExprTree,
    },
    /// `++` or `--`, before the place or after it.
    Step {
        place: PlaceTree,
        up: bool,
    },
    Call {
        name: Ident,
        arguments: Vector<ExprTree>,
    },
    Label {
        name: Ident,
        body: Boxed<Statement>,
    },
    /// An `if` with its `else if` arms, and its last `else` (6.8.4.1).
    If {
        arms: Vector<(ExprTree, Statement)>,
        otherwise: Option<Boxed<Statement>>,
    },
    While {
        test: ExprTree,
        body: Boxed<Statement>,
    },
    Do {
        body: Boxed<Statement>,
        test: ExprTree,
    },
    For {
        first: Option<Boxed<Statement>>,
        test: Option<ExprTree>,
        next: Option<Boxed<Statement>>,
        body: Boxed<Statement>,
    },
    Switch {
        value: ExprTree,
        groups: Vector<Group>,
    },
    Break,
    Continue,
    Return(Option<ExprTree>),
    Assert(ExprTree),
    Assume(ExprTree),
}

// A loop down the bodies, so that statements within statements are dropped in little stack.
impl Drop for Statement {
    #[cycle(drop)]
    fn drop(mut self) {
        'parts: loop {
            let Statement { span: _, form } = self;
            match form {
                Form::Label { name: _name, body } => self = body.into_inner(),
                Form::While { test: _test, body } => self = body.into_inner(),
                Form::Do { body, test: _test } => self = body.into_inner(),
                Form::For {
                    first: _first,
                    test: _test,
                    next: _next,
                    body,
                } => self = body.into_inner(),
                Form::If { arms, otherwise } => {
                    let mut arms = arms;
                    match otherwise {
                        Some(last) => self = last.into_inner(),
                        None => match arms.pop() {
                            Some((_test, body)) => self = body,
                            None => return,
                        },
                    }
                }
                _other => return,
            }
        }
    }
}
