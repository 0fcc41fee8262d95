// Values of kinds.
ghost use Rattle.std.specs.Prelude.{◌≡◌, ◌<◌, false, Ok};
ghost use Rattle.c_values.specs.Kind.{IsKind, IsValue};
ghost use Rattle.c_values.specs.Operations.{binary_kind, is_shift};
ghost use Rattle.cfa.specs.Values.{divisor_trap, operator_trap};
ghost use Rattle.std.specs.Prelude.{IfOk};
ghost use Rattle.tree_meaning.specs.Activations.{as_kind};
ghost use Rattle.tree_meaning.specs.Expressions.{operated};

use c_values::{BinaryOp, Kind, binary_value, convert, is_zero_divisor};
use cfa::Trap;

/// What a kind has of a word of 64 bits.
pub(crate) fn fitted(word: u64, kind: Kind) -> u64
    requires { IsKind kind }
    ensures value { result ≡ as_kind kind word }
    ensures of_kind { IsValue kind result }
{
    convert(word, Kind::UNSIGNED_LONG, kind)
}

fn divisor_trap(divisor: u64, kind: Kind) -> Trap
    requires { IsValue kind divisor }
    ensures { result ≡ divisor_trap kind divisor }
{
    if is_zero_divisor(divisor, kind) {
        Trap::ZeroDivisor
    } else {
        Trap::OverflowDivisor
    }
}

// Why an operator has no value. Of those that are no shifts, both operands have one kind.
fn operator_trap(op: BinaryOp, kind: Kind, right: u64) -> Trap
    requires { is_shift op ≡ false → IsValue kind right }
    ensures { result ≡ operator_trap op kind right }
{
    match op {
        BinaryOp::Div | BinaryOp::Rem => divisor_trap(right, kind),
        _ => Trap::Shift,
    }
}

/// The value of an operator with two operands, or the trap that it ends with.
pub(crate) fn operated(
    op: BinaryOp,
    left: u64,
    kind: Kind,
    right: u64,
    right_kind: Kind,
) -> Result<u64, Trap>
    requires left { IsValue kind left }
    requires right { IsValue right_kind right }
    requires same { is_shift op ≡ false → right_kind ≡ kind }
    ensures value { result ≡ operated op kind right_kind left right }
    ensures of_kind { IfOk result (λ v. IsValue (binary_kind op kind) v) }
{
    match binary_value(op, left, kind, right, right_kind) {
        Some(value) => Ok(value),
        None => Err(operator_trap(op, kind, right)),
    }
}
