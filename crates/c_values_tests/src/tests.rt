//! Rows of other origin than the definitions: what gcc computes with -fwrapv, and cases worked by hand from C11.
mod tables;

use c_values::*;
use std::fmt::Debug;
use std::process::Abort;
use tables::{
    BITS, COMMON, COMPARISONS, CONVERSIONS, DIFFERENCES, PRODUCTS, PROMOTIONS, QUOTIENTS, SHIFTS,
    SUMS, UNARY,
};

/// Ends the test where two values differ. It is a function, since an `assert_eq!` in each place takes long to prove.
fn same<T: PartialEq + Debug + Copy>(rt: &impl Abort, got: T, want: T) {
    assert_eq!(rt; got, want);
}

#[test]
fn sums(rt: HostRuntime) {
    for &(kind, a, b, want) in &SUMS {
        let (a, b) = (a.cast_unsigned(), b.cast_unsigned());
        assert!(rt; is_value(a, kind) && is_value(b, kind));
        same(&rt, add(a, b, kind).cast_signed(), want);
    }
}

#[test]
fn differences(rt: HostRuntime) {
    for &(kind, a, b, want) in &DIFFERENCES {
        let (a, b) = (a.cast_unsigned(), b.cast_unsigned());
        assert!(rt; is_value(a, kind) && is_value(b, kind));
        same(&rt, sub(a, b, kind).cast_signed(), want);
    }
}

#[test]
fn products(rt: HostRuntime) {
    for &(kind, a, b, want) in &PRODUCTS {
        let (a, b) = (a.cast_unsigned(), b.cast_unsigned());
        assert!(rt; is_value(a, kind) && is_value(b, kind));
        same(&rt, mul(a, b, kind).cast_signed(), want);
    }
}

#[test]
fn bits(rt: HostRuntime) {
    for &(kind, a, b, want) in &BITS {
        let (a, b) = (a.cast_unsigned(), b.cast_unsigned());
        assert!(rt; is_value(a, kind) && is_value(b, kind));
        same(&rt, and(a, b, kind).cast_signed(), want[0]);
        same(&rt, or(a, b, kind).cast_signed(), want[1]);
        same(&rt, xor(a, b, kind).cast_signed(), want[2]);
    }
}

#[test]
fn negatives_and_complements(rt: HostRuntime) {
    for &(kind, a, want) in &UNARY {
        let a = a.cast_unsigned();
        assert!(rt; is_value(a, kind));
        same(&rt, neg(a, kind).cast_signed(), want[0]);
        same(&rt, not(a, kind).cast_signed(), want[1]);
        let is_zero = unary_value(UnaryOp::Not, a, kind);
        same(&rt, is_zero, u64::from(a == 0));
    }
}

#[test]
fn comparisons(rt: HostRuntime) {
    for &(kind, a, b, want) in &COMPARISONS {
        let (a, b) = (a.cast_unsigned(), b.cast_unsigned());
        assert!(rt; is_value(a, kind) && is_value(b, kind));
        same(&rt, less(a, b, kind), want[0]);
        same(&rt, equal(a, b, kind), want[1]);
    }
}

#[test]
fn quotients_and_remainders(rt: HostRuntime) {
    for &(kind, a, b, want) in &QUOTIENTS {
        let (a, b) = (a.cast_unsigned(), b.cast_unsigned());
        assert!(rt; is_value(a, kind) && is_value(b, kind));
        let quotient = div(a, b, kind).map(|value| value.cast_signed());
        same(&rt, quotient, want.map(|both| both.0));
        let remainder = rem(a, b, kind).map(|value| value.cast_signed());
        same(&rt, remainder, want.map(|both| both.1));
        same(&rt, has_quotient(a, b, kind), want.is_some());
    }
}

#[test]
fn shifts(rt: HostRuntime) {
    for &(kind, a, amount_kind, amount, want) in &SHIFTS {
        let (a, amount) = (a.cast_unsigned(), amount.cast_unsigned());
        assert!(rt; is_value(a, kind) && is_value(amount, amount_kind));
        let left = shl(a, kind, amount, amount_kind).map(|value| value.cast_signed());
        same(&rt, left, want.map(|both| both.0));
        let right = shr(a, kind, amount, amount_kind).map(|value| value.cast_signed());
        same(&rt, right, want.map(|both| both.1));
    }
}

#[test]
fn conversions(rt: HostRuntime) {
    for &(from, to, value, want) in &CONVERSIONS {
        let value = value.cast_unsigned();
        assert!(rt; is_value(value, from) && is_kind(to));
        same(&rt, convert(value, from, to).cast_signed(), want);
    }
}

#[test]
fn kinds_of_operators(rt: HostRuntime) {
    for &(kind, want) in &PROMOTIONS {
        assert!(rt; is_kind(kind));
        same(&rt, promoted(kind), want);
    }
    for &(a, b, want) in &COMMON {
        assert!(rt; is_kind(a) && is_kind(b));
        same(&rt, common(a, b), want);
    }
}

/// Each operator by its name in int, worked by hand.
static EXAMPLES: [(BinaryOp, i64, i64, Option<i64>); 24] = [
    (BinaryOp::Add, 2_147_483_647, 1, Some(-2_147_483_648)),
    (BinaryOp::Sub, -2_147_483_648, 1, Some(2_147_483_647)),
    (BinaryOp::Mul, 65_536, 65_536, Some(0)),
    (BinaryOp::Div, -7, 2, Some(-3)),
    (BinaryOp::Rem, -7, 2, Some(-1)),
    (BinaryOp::Div, -2_147_483_648, -1, None),
    (BinaryOp::Rem, -2_147_483_648, -1, None),
    (BinaryOp::Div, 1, 0, None),
    (BinaryOp::Shl, 1, 31, Some(-2_147_483_648)),
    (BinaryOp::Shl, 1, 32, None),
    (BinaryOp::Shr, 1, -1, None),
    (BinaryOp::Shr, -8, 1, Some(-4)),
    (BinaryOp::And, -8, 12, Some(8)),
    (BinaryOp::Or, -8, 3, Some(-5)),
    (BinaryOp::Xor, -8, 12, Some(-12)),
    (BinaryOp::Less, -1, 0, Some(1)),
    (BinaryOp::LessEqual, 3, 3, Some(1)),
    (BinaryOp::LessEqual, 4, 3, Some(0)),
    (BinaryOp::Greater, -1, 0, Some(0)),
    (BinaryOp::Greater, 1, 0, Some(1)),
    (BinaryOp::GreaterEqual, 3, 3, Some(1)),
    (BinaryOp::GreaterEqual, 2, 3, Some(0)),
    (BinaryOp::Equal, -5, -5, Some(1)),
    (BinaryOp::NotEqual, -5, -5, Some(0)),
];

#[test]
fn operators_in_int(rt: HostRuntime) {
    let int = Kind::INT;
    for &(op, a, b, want) in &EXAMPLES {
        let (a, b) = (a.cast_unsigned(), b.cast_unsigned());
        assert!(rt; is_value(a, int) && is_value(b, int));
        let got = binary_value(op, a, int, b, int).map(|value| value.cast_signed());
        same(&rt, got, want);
    }
}

/// What is a value of a kind, and what is none.
static VALUES: [(u64, Kind, bool); 9] = [
    (127, Kind::CHAR, true),
    (128, Kind::CHAR, false),
    (0xffff_ffff_ffff_ff80, Kind::CHAR, true),
    (0xffff_ffff_ffff_ff7f, Kind::CHAR, false),
    (255, Kind::UNSIGNED_CHAR, true),
    (256, Kind::UNSIGNED_CHAR, false),
    (0xffff_ffff_ffff_ffff, Kind::UNSIGNED_INT, false),
    (0xffff_ffff_ffff_ffff, Kind::UNSIGNED_LONG, true),
    (0x8000_0000_0000_0000, Kind::LONG, true),
];

#[test]
fn values(rt: HostRuntime) {
    for &(pattern, kind, want) in &VALUES {
        same(&rt, is_value(pattern, kind), want);
    }
    for width in 0..100 {
        let kind = Kind {
            width,
            signed: true,
        };
        let want = width == 8 || width == 16 || width == 32 || width == 64;
        same(&rt, is_kind(kind), want);
        assert!(rt; want || !is_value(0, kind), "{width} bits");
    }
}
