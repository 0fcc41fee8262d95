ghost use Rattle.std.specs.Prelude.{◌≡◌, ◌↔◌, ◌<◌, ◌^◌, ◌*ℤ◌, pos, IsTrue, IsSome, IfSome};
ghost use Rattle.std.specs.Int.{int_shr};
ghost use Rattle.c_values.specs.Kind.{IsKind, IsValue, number_of, fit, wrapped};
ghost use Rattle.c_values.specs.Operations.{is_shift_amount, left_shift_of, right_shift_of, IsShiftAmount};

use crate::conversions::fit;
use crate::kinds::Kind;

/// Whether a value of a kind may be shifted by this amount (6.5.7p3): by 0 to its width less 1.
pub fn is_shift_amount(amount: u64, amount_kind: Kind, kind: Kind) -> bool
    requires amount { IsValue amount_kind amount }
    requires shifted { IsKind kind }
    ensures value { result ≡ is_shift_amount kind amount_kind amount }
    ensures number { IsTrue result ↔ IsShiftAmount kind amount_kind amount }
    ensures not_negative { IsTrue result → number_of amount_kind amount ≡ pos amount }
{
    amount < kind.width as u64
}

/// `a << amount` (6.5.7p4): what the kind has of the product with 2 to the amount, or None where the amount is not
/// from 0 to the width less 1.
pub fn shl(a: u64, kind: Kind, amount: u64, amount_kind: Kind) -> Option<u64>
    requires left { IsValue kind a }
    requires right { IsValue amount_kind amount }
    ensures value { result ≡ left_shift_of kind a amount_kind amount }
    ensures some { IsSome result ↔ IsShiftAmount kind amount_kind amount }
    ensures of_kind { IfSome result (λ r. IsValue kind r) }
    ensures number { IfSome result (λ r. number_of kind r ≡ fit kind (number_of kind a *ℤ pos (2 ^ amount))) }
{
    if is_shift_amount(amount, amount_kind, kind) {
        Some(fit(a << amount, kind))
    } else {
        None
    }
}

/// `a >> amount` (6.5.7p5): the quotient by 2 to the amount, rounded down, or None where the amount is not from 0 to
/// the width less 1.
pub fn shr(a: u64, kind: Kind, amount: u64, amount_kind: Kind) -> Option<u64>
    requires left { IsValue kind a }
    requires right { IsValue amount_kind amount }
    ensures value { result ≡ right_shift_of kind a amount_kind amount }
    ensures some { IsSome result ↔ IsShiftAmount kind amount_kind amount }
    ensures of_kind { IfSome result (λ r. IsValue kind r) }
    ensures number { IfSome result (λ r. number_of kind r ≡ int_shr (number_of kind a) amount) }
{
    if is_shift_amount(amount, amount_kind, kind) {
        Some(shifted_down(a, kind, amount))
    } else {
        None
    }
}

fn shifted_down(a: u64, kind: Kind, amount: u64) -> u64
    requires left { IsValue kind a }
    requires amount { amount < kind.width }
    ensures { result ≡ wrapped kind (int_shr (number_of kind a) amount) }
{
    if kind.signed {
        (a.cast_signed() >> amount).cast_unsigned()
    } else {
        a >> amount
    }
}
