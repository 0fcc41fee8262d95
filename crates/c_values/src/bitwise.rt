ghost use Rattle.std.specs.Prelude.{◌≡◌, ◌-◌, ◌<◌, ℕ, bit_and, bit_or, bit_xor};
ghost use Rattle.std.specs.Int.{bit_at};
ghost use Rattle.c_values.specs.Kind.{IsValue};
ghost use Rattle.c_values.specs.Operations.{complement_of};

use crate::conversions::fit;
use crate::kinds::Kind;

/// `a & b` (6.5.10p4): each bit is set where both operands' bits are.
pub fn and(a: u64, b: u64, kind: Kind) -> u64
    requires left { IsValue kind a }
    requires right { IsValue kind b }
    ensures value { result ≡ bit_and a b }
    ensures of_kind { IsValue kind result }
{
    a & b
}

/// `a | b` (6.5.12p4): each bit is set where one of the operands' bits is.
pub fn or(a: u64, b: u64, kind: Kind) -> u64
    requires left { IsValue kind a }
    requires right { IsValue kind b }
    ensures value { result ≡ bit_or a b }
    ensures of_kind { IsValue kind result }
{
    a | b
}

/// `a ^ b` (6.5.11p4): each bit is set where just one of the operands' bits is.
pub fn xor(a: u64, b: u64, kind: Kind) -> u64
    requires left { IsValue kind a }
    requires right { IsValue kind b }
    ensures value { result ≡ bit_xor a b }
    ensures of_kind { IsValue kind result }
{
    a ^ b
}

/// `~a` (6.5.3.3p4): each bit of the kind is set where the operand's is not.
pub fn not(a: u64, kind: Kind) -> u64
    requires { IsValue kind a }
    ensures value { result ≡ complement_of kind a }
    ensures of_kind { IsValue kind result }
    ensures bits { (i : ℕ) → i < kind.width → bit_at result i ≡ 1 - bit_at a i }
{
    fit(!a, kind)
}
