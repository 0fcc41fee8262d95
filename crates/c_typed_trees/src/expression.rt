// The typed trees of expressions.
use c_values::{BinaryOp, Kind, UnaryOp};
use cfa::Variable;
use containers::{Boxed, Vector};
use fq_core::Span;

/// Which function is called, by its number, from 0.
#[derive(Clone, Copy, Debug, PartialEq, Eq)]
pub enum Callee {
    /// Among the defined functions, in the order of the source.
    Defined(u32),
    /// Among the input functions, in the order of their first declarations.
    Input(u32),
}

/// A variable, or an element of an array by its index.
#[cycle(typed)]
#[derive(Drop)]
pub struct TypedPlace {
    pub variable: Variable,
    pub index: Option<TypedExpr>,
}

/// A call of a function (ISO/IEC 9899:2011, 6.5.2.2).
#[cycle(typed)]
#[derive(Drop)]
pub struct TypedCall {
    pub callee: Callee,
    /// The arguments for the parameters that are integers, in order, each converted to its parameter's kind.
    pub words: Vector<TypedExpr>,
    /// The arrays that are lent, in order.
    pub arrays: Vector<Variable>,
    /// The frame's cell, from 0, that the result is put into.
    pub cell: u32,
}

/// An expression, with the place of its first token and the kind of its value.
#[cycle(typed)]
pub struct TypedExpr {
    pub span: Span,
    pub kind: Kind,
    pub form: TypedExprForm,
}

/// What a typed expression is made of. A `cell` is the frame's cell, from 0, that its value is put into.
#[cycle(typed)]
#[derive(Drop)]
pub enum TypedExprForm {
    /// A value of the kind, as `c_values` keeps it.
    Constant(u64),
    Load(Boxed<TypedPlace>),
    /// The operand, converted to the kind (6.3.1.3).
    Convert(Boxed<TypedExpr>),
    /// An operator on an operand of the kind in which it is done.
    Unary(UnaryOp, Boxed<TypedExpr>),
    /// An operator on two operands, the first of the kind in which it is done.
    Binary(BinaryOp, Boxed<TypedExpr>, Boxed<TypedExpr>),
    /// `&&` (6.5.13).
    Both {
        left: Boxed<TypedExpr>,
        right: Boxed<TypedExpr>,
        cell: u32,
    },
    /// `||` (6.5.14).
    Either {
        left: Boxed<TypedExpr>,
        right: Boxed<TypedExpr>,
        cell: u32,
    },
    /// `?:`, whose last two parts have the kind of the whole (6.5.15).
    Choice {
        test: Boxed<TypedExpr>,
        yes: Boxed<TypedExpr>,
        no: Boxed<TypedExpr>,
        cell: u32,
    },
    Call(Boxed<TypedCall>),
}

// A loop down the left operands, so that a long sum is dropped in little stack.
impl Drop for TypedExpr {
    #[cycle(drop_expression)]
    fn drop(mut self) {
        'parts: loop {
            let TypedExpr {
                span: _,
                kind: _,
                form,
            } = self;
            match form {
                TypedExprForm::Constant(_) => return,
                TypedExprForm::Load(_place) => return,
                TypedExprForm::Call(_call) => return,
                TypedExprForm::Convert(inner) | TypedExprForm::Unary(_, inner) => {
                    self = inner.into_inner();
                }
                TypedExprForm::Binary(_, left, _right) => self = left.into_inner(),
                TypedExprForm::Both {
                    left,
                    right: _right,
                    cell: _,
                }
                | TypedExprForm::Either {
                    left,
                    right: _right,
                    cell: _,
                } => self = left.into_inner(),
                TypedExprForm::Choice {
                    test: _test,
                    yes: _yes,
                    no,
                    cell: _,
                } => self = no.into_inner(),
            }
        }
    }
}
