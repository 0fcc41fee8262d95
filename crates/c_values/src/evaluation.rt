ghost use Rattle.std.specs.Prelude.{◌≡◌, false, IfSome};
ghost use Rattle.c_values.specs.Kind.{IsValue, int};
ghost use Rattle.c_values.specs.Operations.{truth_of, unary_value, unary_kind, binary_value, binary_kind, is_shift};

use crate::arithmetic::{add, mul, neg, sub};
use crate::bitwise::{and, not, or, xor};
use crate::comparisons::{equal, less};
use crate::division::{div, rem};
use crate::kinds::Kind;
use crate::operators::{BinaryOp, UnaryOp};
use crate::shifts::{shl, shr};

/// The value of an operator with one operand: of `!` an int, and of the others a value of the operand's kind.
pub fn unary_value(op: UnaryOp, a: u64, kind: Kind) -> u64
    requires { IsValue kind a }
    ensures value { result ≡ unary_value op kind a }
    ensures of_kind { IsValue (unary_kind op kind) result }
{
    match op {
        UnaryOp::Neg => neg(a, kind),
        UnaryOp::Complement => not(a, kind),
        UnaryOp::Not => truth(equal(a, 0, kind)),
    }
}

/// The value of an operator with two operands, or None where it has none: of a comparison an int, and of the others
/// a value of the first operand's kind. Only at a shift may the operands differ in kind.
pub fn binary_value(op: BinaryOp, a: u64, kind: Kind, b: u64, right: Kind) -> Option<u64>
    requires left { IsValue kind a }
    requires right { IsValue right b }
    requires same { is_shift op ≡ false → right ≡ kind }
    ensures value { result ≡ binary_value op kind right a b }
    ensures of_kind { IfSome result (λ v. IsValue (binary_kind op kind) v) }
{
    match op {
        BinaryOp::Add => Some(add(a, b, kind)),
        BinaryOp::Sub => Some(sub(a, b, kind)),
        BinaryOp::Mul => Some(mul(a, b, kind)),
        BinaryOp::Div => div(a, b, kind),
        BinaryOp::Rem => rem(a, b, kind),
        BinaryOp::Shl => shl(a, kind, b, right),
        BinaryOp::Shr => shr(a, kind, b, right),
        BinaryOp::And => Some(and(a, b, kind)),
        BinaryOp::Or => Some(or(a, b, kind)),
        BinaryOp::Xor => Some(xor(a, b, kind)),
        BinaryOp::Less => Some(truth(less(a, b, kind))),
        BinaryOp::LessEqual => Some(truth(!less(b, a, kind))),
        BinaryOp::Greater => Some(truth(less(b, a, kind))),
        BinaryOp::GreaterEqual => Some(truth(!less(a, b, kind))),
        BinaryOp::Equal => Some(truth(equal(a, b, kind))),
        BinaryOp::NotEqual => Some(truth(!equal(a, b, kind))),
    }
}

/// What a test gives: the int 1 or 0 (6.5.8p6).
fn truth(test: bool) -> u64
    ensures value { result ≡ truth_of test }
    ensures of_kind { IsValue int result }
{
    u64::from(test)
}
