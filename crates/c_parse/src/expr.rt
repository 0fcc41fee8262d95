// The trees of expressions.
ghost use Rattle.std.specs.Prelude.{◌≡◌};
ghost use Rattle.c_parse.specs.SequencePoints.{has_sequence_point};

use c_values::{BinaryOp, Kind, UnaryOp};
use containers::{Boxed, Vector};
use fq_core::{Name, Span};

/// An identifier, and where it stands.
#[derive(Debug, Drop)]
pub struct Ident {
    pub name: Name,
    pub span: Span,
}

/// An expression (ISO/IEC 9899:2011, 6.5). Parentheses leave no trace.
#[cycle(expr)]
pub struct ExprTree {
    /// The span of its first token, parentheses round the whole expression left out.
    pub span: Span,
    pub form: ExprForm,
}

/// What an expression is made of.
#[cycle(expr)]
#[derive(Drop)]
pub enum ExprForm {
    /// A constant, with its value and its kind (6.4.4).
    Number(u64, Kind),
    Name(Name),
    /// An element of an array, by its index (6.5.2.1).
    Element(Name, Boxed<ExprTree>),
    /// A call with its arguments (6.5.2.2).
    Call(Name, Vector<ExprTree>),
    /// A cast to a kind (6.5.4).
    Cast(Kind, Boxed<ExprTree>),
    /// A unary `+` (6.5.3.3).
    Plus(Boxed<ExprTree>),
    Unary(UnaryOp, Boxed<ExprTree>),
    Binary(BinaryOp, Boxed<ExprTree>, Boxed<ExprTree>),
    /// `&&` (6.5.13).
    Both(Boxed<ExprTree>, Boxed<ExprTree>),
    /// `||` (6.5.14).
    Either(Boxed<ExprTree>, Boxed<ExprTree>),
    /// `?:` (6.5.15).
    Choice(Boxed<ExprTree>, Boxed<ExprTree>, Boxed<ExprTree>),
}

// A loop down the left operands, so that a long sum is dropped in little stack.
impl Drop for ExprTree {
    fn drop(mut self) {
        'parts: loop {
            let ExprTree { span: _, form } = self;
            match form {
                ExprForm::Number(_, _) => return,
                ExprForm::Name(_name) => return,
                ExprForm::Call(_name, _arguments) => return,
                ExprForm::Element(_name, inner) => self = inner.into_inner(),
                ExprForm::Cast(_, inner) | ExprForm::Plus(inner) | ExprForm::Unary(_, inner) => {
                    self = inner.into_inner();
                }
                ExprForm::Binary(_, left, _right)
                | ExprForm::Both(left, _right)
                | ExprForm::Either(left, _right) => self = left.into_inner(),
                ExprForm::Choice(_test, _yes, no) => self = no.into_inner(),
            }
        }
    }
}

impl ExprTree {
    /// Whether a sequence point stands in it (Annex C): that of a call, `&&`, `||` or `?:`.
    #[tactic(auto, using(crate::proofs::TreeLaws::expr_laws), unfolding(crate::specs::SequencePoints::has_sequence_point, crate::specs::SequencePoints::sequence_step))]
    pub fn has_sequence_point(&self) -> bool
        ensures { result ≡ has_sequence_point self.now }
    {
        let mut tree = self;
        loop {
            match &tree.form {
                ExprForm::Number(_, _) | ExprForm::Name(_) => return false,
                ExprForm::Element(_, inner)
                | ExprForm::Cast(_, inner)
                | ExprForm::Plus(inner)
                | ExprForm::Unary(_, inner) => tree = inner,
                ExprForm::Binary(_, left, right) => {
                    if right.has_sequence_point() {
                        return true;
                    }
                    tree = left;
                }
                ExprForm::Call(_, _)
                | ExprForm::Both(_, _)
                | ExprForm::Either(_, _)
                | ExprForm::Choice(_, _, _) => return true,
            }
        }
    }
}
