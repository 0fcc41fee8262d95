ghost use Rattle.std.specs.Prelude.{◌≡◌, ◌↔◌, true, pos, int_div, int_rem, IsTrue, IsFalse, IsNone, IfSome};
ghost use Rattle.c_values.specs.Kind.{IsValue, number_of, wrapped};
ghost use Rattle.c_values.specs.Operations.{is_zero_divisor, is_overflow_divisor, has_quotient, quotient_of, remainder_of, IsOverflowDivisor, HasNoQuotient};

use crate::kinds::Kind;

/// Whether a divisor is 0, by which there is no quotient (6.5.5p5).
pub fn is_zero_divisor(b: u64, kind: Kind) -> bool
    requires { IsValue kind b }
    ensures value { result ≡ is_zero_divisor kind b }
    ensures number { IsTrue result ↔ (number_of kind b ≡ pos 0) }
{
    b == 0
}

/// Whether the quotient is no number of the kind (6.5.5p6): the kind has a sign, and its least number is divided by -1.
pub fn is_overflow_divisor(a: u64, b: u64, kind: Kind) -> bool
    requires left { IsValue kind a }
    requires right { IsValue kind b }
    ensures value { result ≡ is_overflow_divisor kind a b }
    ensures number { IsTrue result ↔ IsOverflowDivisor kind a b }
{
    kind.signed && a == u64::MAX << (kind.width as u32 - 1) && b == u64::MAX
}

/// Whether there is a quotient and a remainder (6.5.5p5, p6).
pub fn has_quotient(a: u64, b: u64, kind: Kind) -> bool
    requires left { IsValue kind a }
    requires right { IsValue kind b }
    ensures value { result ≡ has_quotient kind a b }
    ensures number { IsFalse result ↔ HasNoQuotient kind a b }
{
    !is_zero_divisor(b, kind) && !is_overflow_divisor(a, b, kind)
}

/// `a / b` (6.5.5p5, p6), rounded toward zero, or None where there is no quotient.
pub fn div(a: u64, b: u64, kind: Kind) -> Option<u64>
    requires left { IsValue kind a }
    requires right { IsValue kind b }
    ensures value { result ≡ quotient_of kind a b }
    ensures none { IsNone result ↔ HasNoQuotient kind a b }
    ensures of_kind { IfSome result (λ q. IsValue kind q) }
    ensures number { IfSome result (λ q. number_of kind q ≡ int_div (number_of kind a) (number_of kind b)) }
{
    if has_quotient(a, b, kind) {
        Some(quotient(a, b, kind))
    } else {
        None
    }
}

/// `a % b` (6.5.5p5, p6), with the sign of `a`, or None where there is no quotient.
pub fn rem(a: u64, b: u64, kind: Kind) -> Option<u64>
    requires left { IsValue kind a }
    requires right { IsValue kind b }
    ensures value { result ≡ remainder_of kind a b }
    ensures none { IsNone result ↔ HasNoQuotient kind a b }
    ensures of_kind { IfSome result (λ r. IsValue kind r) }
    ensures number { IfSome result (λ r. number_of kind r ≡ int_rem (number_of kind a) (number_of kind b)) }
{
    if has_quotient(a, b, kind) {
        Some(remainder(a, b, kind))
    } else {
        None
    }
}

fn quotient(a: u64, b: u64, kind: Kind) -> u64
    requires left { IsValue kind a }
    requires right { IsValue kind b }
    requires has_quotient { has_quotient kind a b ≡ true }
    ensures { result ≡ wrapped kind (int_div (number_of kind a) (number_of kind b)) }
{
    if kind.signed {
        (a.cast_signed() / b.cast_signed()).cast_unsigned()
    } else {
        a / b
    }
}

fn remainder(a: u64, b: u64, kind: Kind) -> u64
    requires left { IsValue kind a }
    requires right { IsValue kind b }
    requires has_quotient { has_quotient kind a b ≡ true }
    ensures { result ≡ wrapped kind (int_rem (number_of kind a) (number_of kind b)) }
{
    if kind.signed {
        (a.cast_signed() % b.cast_signed()).cast_unsigned()
    } else {
        a % b
    }
}
