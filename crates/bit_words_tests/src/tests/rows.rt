// Kinds, operators and operands.
use c_values::BinaryOp::{Add, And, Div, Equal, Less, Mul, Or, Rem, Shl, Shr, Sub, Xor};
use c_values::{BinaryOp, Kind};

const C: Kind = Kind::CHAR;

const UC: Kind = Kind::UNSIGNED_CHAR;

const S: Kind = Kind::SHORT;

const US: Kind = Kind::UNSIGNED_SHORT;

const I: Kind = Kind::INT;

const U: Kind = Kind::UNSIGNED_INT;

const L: Kind = Kind::LONG;

const UL: Kind = Kind::UNSIGNED_LONG;

pub const KINDS: [Kind; 8] = [C, UC, S, US, I, U, L, UL];

pub const OPERATORS: [BinaryOp; 12] = [
    BinaryOp::Add,
    BinaryOp::Sub,
    BinaryOp::Mul,
    BinaryOp::Div,
    BinaryOp::Rem,
    BinaryOp::Shl,
    BinaryOp::Shr,
    BinaryOp::And,
    BinaryOp::Or,
    BinaryOp::Xor,
    BinaryOp::Less,
    BinaryOp::Equal,
];

// A pattern of which a kind has a telling value, by its number below 10.
pub fn telling(kind: Kind, number: u32) -> u64 {
    let least = match kind.width {
        8 => 1u64 << 7,
        16 => 1 << 15,
        32 => 1 << 31,
        _ => 1 << 63,
    };
    match number {
        0 => 0,
        1 => 1,
        2 => u64::MAX,
        3 => least,
        4 => least - 1,
        5 => 0x5a3c_9617_d2e4_4b81,
        6 => kind.width as u64,
        7 => 3,
        8 => 0xffff_ffff_ffff_fff9,
        _ => 7,
    }
}

// Quotients are rounded toward zero and remainders have the dividend's sign (6.5.5p6); there are none by 0 and of the
// least number by -1; sums, differences and products wrap; `>>` rounds down, and `<<` is a product (6.5.7). What a
// comparison gives is 1 or 0.
pub static BY_HAND: [(BinaryOp, Kind, i64, i64, Option<i64>); 39] = [
    (Div, I, -7, 2, Some(-3)),
    (Div, I, 7, -2, Some(-3)),
    (Div, I, -2147483648, -1, None),
    (Div, I, 5, 0, None),
    (Div, U, 4294967289, 2, Some(2147483644)),
    (Div, U, 2147483648, 4294967295, Some(0)),
    (Div, L, i64::MIN, -1, None),
    (Div, L, i64::MIN, 10, Some(-922337203685477580)),
    (Div, UL, -1, 10, Some(1844674407370955161)),
    (Div, C, -128, 3, Some(-42)),
    (Rem, I, -7, 2, Some(-1)),
    (Rem, I, 7, -2, Some(1)),
    (Rem, I, -2147483648, -1, None),
    (Rem, U, 4294967289, 10, Some(9)),
    (Rem, L, -10, 0, None),
    (Rem, UL, -1, 10, Some(5)),
    (Shl, I, 1, 32, None),
    (Shl, I, 1, 31, Some(-2147483648)),
    (Shl, I, 3, -1, None),
    (Shl, U, 1, 31, Some(2147483648)),
    (Shl, UC, 255, 4, Some(240)),
    (Shr, I, -7, 1, Some(-4)),
    (Shr, U, 4294967289, 1, Some(2147483644)),
    (Shr, L, i64::MIN, 63, Some(-1)),
    (Shr, L, 1, 64, None),
    (Add, I, 2147483647, 1, Some(-2147483648)),
    (Add, UC, 250, 10, Some(4)),
    (Sub, U, 0, 1, Some(4294967295)),
    (Mul, I, 65536, 65535, Some(-65536)),
    (Mul, S, -32768, -1, Some(-32768)),
    (And, I, -7, 12, Some(8)),
    (Or, UC, 170, 15, Some(175)),
    (Xor, L, -1, 5, Some(-6)),
    (Less, I, -1, 1, Some(1)),
    (Less, U, 4294967295, 1, Some(0)),
    (Less, L, i64::MIN, i64::MAX, Some(1)),
    (Less, C, 5, 5, Some(0)),
    (Equal, I, -1, -1, Some(1)),
    (Equal, UL, i64::MIN, 0, Some(0)),
];

// The calls of one operand.
#[derive(Clone, Copy, Debug)]
pub enum One {
    Neg,
    Not,
    Convert,
}

// `-` of the least number is it again; `~` sets each bit of the kind that was not set (6.5.3.3p3, p4); a conversion keeps
// the number modulo 2 to the width (6.3.1.3).
pub static ONE_BY_HAND: [(One, Kind, Kind, i64, i64); 14] = [
    (One::Neg, I, I, -2147483648, -2147483648),
    (One::Neg, I, I, 7, -7),
    (One::Neg, U, I, 1, 4294967295),
    (One::Neg, L, L, 0, 0),
    (One::Not, I, I, 0, -1),
    (One::Not, UC, I, 5, 250),
    (One::Convert, I, C, 200, -56),
    (One::Convert, I, UC, -1, 255),
    (One::Convert, C, U, -1, 4294967295),
    (One::Convert, UC, I, 255, 255),
    (One::Convert, I, L, -2147483648, -2147483648),
    (One::Convert, L, US, -65537, 65535),
    (One::Convert, U, I, 2147483648, -2147483648),
    (One::Convert, C, UL, -128, -128),
];
