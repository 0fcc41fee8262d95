ghost use Rattle.std.specs.Prelude.{◌≡◌, true, false, pos};
ghost use Rattle.c_values.specs.Kind.{IsKind, IsValue, is_value, number_of, fit, wrapped, converted, promoted, common, mixed};

use crate::kinds::{Kind, is_kind};

/// What a kind has of 64 bits: its lowest bits, with a sign or without.
pub(crate) fn fit(bits: u64, kind: Kind) -> u64
    requires { IsKind kind }
    ensures { result ≡ wrapped kind (pos bits) }
{
    let spare = 64 - kind.width as u32;
    let high = bits << spare;
    if kind.signed {
        (high.cast_signed() >> spare).cast_unsigned()
    } else {
        high >> spare
    }
}

/// Whether 64 bits keep a value of a kind.
pub fn is_value(value: u64, kind: Kind) -> bool
    ensures { result ≡ is_value kind value }
{
    is_kind(kind) && fit(value, kind) == value
}

/// A value of one kind in another (6.3.1.3): the number of the other's range that equals it modulo 2 to its width.
pub fn convert(value: u64, from: Kind, to: Kind) -> u64
    requires operand { IsValue from value }
    requires target { IsKind to }
    ensures value { result ≡ converted from to value }
    ensures of_kind { IsValue to result }
    ensures number { number_of to result ≡ fit to (number_of from value) }
{
    fit(value, to)
}

/// The kind that an operand has after the integer promotions (6.3.1.1p2): `int` in place of each narrower kind.
pub fn promoted(kind: Kind) -> Kind
    requires { IsKind kind }
    ensures value { result ≡ promoted kind }
    ensures is_kind { IsKind result }
{
    if kind.width < 32 { Kind::INT } else { kind }
}

/// The common kind of two operands by the usual arithmetic conversions (6.3.1.8).
pub fn common(a: Kind, b: Kind) -> Kind
    requires left { IsKind a }
    requires right { IsKind b }
    ensures value { result ≡ common a b }
    ensures is_kind { IsKind result }
{
    let a = promoted(a);
    let b = promoted(b);
    if a.signed == b.signed {
        if b.width <= a.width { a } else { b }
    } else if a.signed {
        mixed(a, b)
    } else {
        mixed(b, a)
    }
}

/// The common kind of one with a sign and one without: that with the sign only where it is wider.
fn mixed(with_sign: Kind, without: Kind) -> Kind
    requires left { IsKind with_sign }
    requires right { IsKind without }
    requires signed { with_sign.signed ≡ true }
    requires unsigned { without.signed ≡ false }
    ensures { result ≡ mixed with_sign without }
{
    if with_sign.width <= without.width {
        without
    } else {
        with_sign
    }
}
