// The typed trees of statements.
use crate::expression::{TypedCall, TypedExpr, TypedPlace};
use c_values::{BinaryOp, Kind};
use cfa::Variable;
use containers::{Boxed, Vector};
use fq_core::{Name, Span};

/// The labels of a `switch` that stand in a row, and the statements after them (ISO/IEC 9899:2011, 6.8.1).
#[cycle(typed_statement)]
#[derive(Drop)]
pub struct TypedGroup {
    /// Each `case` with its value, a value of the kind of the switch's expression, and `default` with none; with the
    /// place of the word.
    pub labels: Vector<(Span, Option<u64>)>,
    pub body: Vector<TypedStatement>,
}

/// A statement, with the place of its first token. A declaration with several declarators is one statement for each,
/// all with the declaration's place.
#[cycle(typed_statement)]
pub struct TypedStatement {
    pub span: Span,
    pub form: TypedForm,
}

/// What a typed statement is made of.
#[cycle(typed_statement)]
#[derive(Drop)]
pub enum TypedForm {
    Block(Vector<TypedStatement>),
    Empty,
    /// An integer that is declared, with what it begins as, or 0.
    Local {
        variable: Variable,
        first: Option<TypedExpr>,
    },
    /// An array that is declared, with the first of its elements; the others begin as 0.
    LocalArray {
        variable: Variable,
        list: Vector<TypedExpr>,
    },
    /// Without an operator the value is put into the place, whose kind it has. With an operator and its kind the
    /// place's value is converted to that kind, the operator is applied to it and the value, and the result is
    /// converted to the place's kind (6.5.16.2).
    Assign {
        place: TypedPlace,
        operator: Option<(BinaryOp, Kind)>,
        value: TypedExpr,
    },
    Call(TypedCall),
    Label {
        name: Name,
        body: Boxed<TypedStatement>,
    },
    /// An `if` with its `else if` arms, and its last `else` (6.8.4.1).
    If {
        arms: Vector<(TypedExpr, TypedStatement)>,
        otherwise: Option<Boxed<TypedStatement>>,
    },
    While {
        test: TypedExpr,
        body: Boxed<TypedStatement>,
    },
    Do {
        body: Boxed<TypedStatement>,
        test: TypedExpr,
    },
    For {
        first: Vector<TypedStatement>,
        test: Option<TypedExpr>,
        next: Option<Boxed<TypedStatement>>,
        body: Boxed<TypedStatement>,
    },
    /// The value has its promoted kind, and is put into a cell of the frame (6.8.4.2).
    Switch {
        value: TypedExpr,
        cell: u32,
        groups: Vector<TypedGroup>,
    },
    Break,
    Continue,
    /// The value has the kind of the function's result.
    Return(Option<TypedExpr>),
    Assert(TypedExpr),
    Assume(TypedExpr),
}

// A loop down the bodies, so that statements within statements are dropped in little stack.
impl Drop for TypedStatement {
    #[cycle(drop)]
    fn drop(mut self) {
        'parts: loop {
            let TypedStatement { span: _, form } = self;
            match form {
                TypedForm::Label { name: _name, body } => self = body.into_inner(),
                TypedForm::While { test: _test, body } => self = body.into_inner(),
                TypedForm::Do { body, test: _test } => self = body.into_inner(),
                TypedForm::For {
                    first: _first,
                    test: _test,
                    next: _next,
                    body,
                } => self = body.into_inner(),
                TypedForm::If { arms, otherwise } => {
                    let mut arms = arms;
                    match otherwise {
                        Some(last) => self = last.into_inner(),
                        None => match arms.pop() {
                            Some((_test, body)) => self = body,
                            None => return,
                        },
                    }
                }
                _other => return,
            }
        }
    }
}
