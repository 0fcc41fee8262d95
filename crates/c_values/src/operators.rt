ghost use Rattle.std.specs.Prelude.{◌≡◌};
ghost use Rattle.c_values.specs.Operations.{is_shift, is_comparison, unary_kind, binary_kind};

use crate::kinds::Kind;

/// An operator of C with one operand (6.5.3.3): `-`, `~` and `!`.
#[derive(Clone, Copy, Debug, PartialEq, Eq)]
pub enum UnaryOp {
    Neg,
    Complement,
    Not,
}

/// An operator of C with two operands (6.5.5 to 6.5.12).
#[derive(Clone, Copy, Debug, PartialEq, Eq)]
pub enum BinaryOp {
    Add,
    Sub,
    Mul,
    Div,
    Rem,
    Shl,
    Shr,
    And,
    Or,
    Xor,
    Less,
    LessEqual,
    Greater,
    GreaterEqual,
    Equal,
    NotEqual,
}

/// The kind of the value of an operator with one operand of this kind: of `!` an int.
pub fn unary_kind(op: UnaryOp, kind: Kind) -> Kind
    ensures { result ≡ unary_kind op kind }
{
    match op {
        UnaryOp::Not => Kind::INT,
        UnaryOp::Neg | UnaryOp::Complement => kind,
    }
}

/// Whether an operator shifts, so that its operands may differ in kind (6.5.7p3).
pub fn is_shift(op: BinaryOp) -> bool
    ensures { result ≡ is_shift op }
{
    matches!(op, BinaryOp::Shl | BinaryOp::Shr)
}

// Whether an operator compares (6.5.8, 6.5.9).
fn is_comparison(op: BinaryOp) -> bool
    ensures { result ≡ is_comparison op }
{
    matches!(
        op,
        BinaryOp::Less
            | BinaryOp::LessEqual
            | BinaryOp::Greater
            | BinaryOp::GreaterEqual
            | BinaryOp::Equal
            | BinaryOp::NotEqual
    )
}

/// The kind of the value of an operator whose first operand has this kind: of a comparison an int.
pub fn binary_kind(op: BinaryOp, kind: Kind) -> Kind
    ensures { result ≡ binary_kind op kind }
{
    if is_comparison(op) { Kind::INT } else { kind }
}
