// What is counted.
use c_values::{BinaryOp, Kind, UnaryOp};
use cfa::ArrayPlace;
use test_expressions::{Part, Places};

#[derive(Clone, Copy)]
pub enum Call {
    Two(BinaryOp),
    Neg,
    Not,
    Less,
    Equal,
    Choose,
}

pub const CALLS: [(&'static str, Call); 15] = [
    ("and", Call::Two(BinaryOp::And)),
    ("or", Call::Two(BinaryOp::Or)),
    ("xor", Call::Two(BinaryOp::Xor)),
    ("not", Call::Not),
    ("add", Call::Two(BinaryOp::Add)),
    ("sub", Call::Two(BinaryOp::Sub)),
    ("neg", Call::Neg),
    ("less", Call::Less),
    ("equal", Call::Equal),
    ("shl", Call::Two(BinaryOp::Shl)),
    ("shr", Call::Two(BinaryOp::Shr)),
    ("mul", Call::Two(BinaryOp::Mul)),
    ("div", Call::Two(BinaryOp::Div)),
    ("rem", Call::Two(BinaryOp::Rem)),
    ("choose", Call::Choose),
];

pub const KINDS: [Kind; 8] = [
    Kind::CHAR,
    Kind::UNSIGNED_CHAR,
    Kind::SHORT,
    Kind::UNSIGNED_SHORT,
    Kind::INT,
    Kind::UNSIGNED_INT,
    Kind::LONG,
    Kind::UNSIGNED_LONG,
];

// Two ints `x` and `y`, a long `z`, and arrays `a` of 4 ints, `b` of 100 ints and `c` of 100 chars.
pub const PLACES: Places = Places {
    cells: 207,
    globals: 207,
    base: 207,
    locals: 0,
    lent: (0, 0),
};

const X: Part = Part::Global(0, Kind::INT);

const Y: Part = Part::Global(1, Kind::INT);

const Z: Part = Part::Global(2, Kind::LONG);

pub const EXPRESSIONS: [(&'static str, &'static [Part]); 10] = [
    ("x + y", &[X, Y, Part::Two(BinaryOp::Add, Kind::INT)]),
    ("x * y", &[X, Y, Part::Two(BinaryOp::Mul, Kind::INT)]),
    ("x / y", &[X, Y, Part::Two(BinaryOp::Div, Kind::INT)]),
    ("x << y", &[X, Y, Part::Two(BinaryOp::Shl, Kind::INT)]),
    ("x == y", &[X, Y, Part::Two(BinaryOp::Equal, Kind::INT)]),
    ("!x", &[X, Part::One(UnaryOp::Not, Kind::INT)]),
    (
        "a[x]",
        &[X, Part::Element(ArrayPlace::Global(3), 4, Kind::INT)],
    ),
    (
        "b[x]",
        &[X, Part::Element(ArrayPlace::Global(7), 100, Kind::INT)],
    ),
    (
        "c[x]",
        &[X, Part::Element(ArrayPlace::Global(107), 100, Kind::CHAR)],
    ),
    (
        "(z + x) % 7 < b[y]",
        &[
            Z,
            X,
            Part::To(Kind::LONG),
            Part::Two(BinaryOp::Add, Kind::LONG),
            Part::Number(7, Kind::LONG),
            Part::Two(BinaryOp::Rem, Kind::LONG),
            Y,
            Part::Element(ArrayPlace::Global(7), 100, Kind::INT),
            Part::To(Kind::LONG),
            Part::Two(BinaryOp::Less, Kind::LONG),
        ],
    ),
];
