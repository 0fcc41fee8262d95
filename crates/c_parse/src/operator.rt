// The operators of expressions (ISO/IEC 9899:2011, 6.5).
use c_values::{BinaryOp, UnaryOp};

/// An operator before its operand (6.5.3.3).
#[derive(Clone, Copy, Debug, PartialEq, Eq)]
pub enum Prefix {
    Plus,
    Unary(UnaryOp),
}

/// An operator between its operands (6.5.5 to 6.5.14).
#[derive(Clone, Copy, Debug, PartialEq, Eq)]
pub enum Infix {
    Binary(BinaryOp),
    /// `&&`
    Both,
    /// `||`
    Either,
}
