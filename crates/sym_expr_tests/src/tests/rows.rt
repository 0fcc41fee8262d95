// Expressions as lists of parts, and what they are in three worlds. The values are gcc's: `acceptance/expression_rows` makes
// them again, and compares them with those that stand here.
use c_values::BinaryOp::{
    Add, And, Div, Equal, Greater, GreaterEqual, Less, LessEqual, Mul, NotEqual, Or, Rem, Shl, Shr,
    Sub, Xor,
};
use c_values::Kind;
use c_values::UnaryOp::{Complement, Neg, Not};
use cfa::ArrayPlace;
use test_expressions::Part::{Element, Global, Local, Number, One, To, Two};
use test_expressions::{Part, Places};

const C: Kind = Kind::CHAR;

const UC: Kind = Kind::UNSIGNED_CHAR;

const S: Kind = Kind::SHORT;

const US: Kind = Kind::UNSIGNED_SHORT;

const I: Kind = Kind::INT;

const U: Kind = Kind::UNSIGNED_INT;

const L: Kind = Kind::LONG;

const UL: Kind = Kind::UNSIGNED_LONG;

// The arrays: of four shorts, of four unsigned chars, and of four ints.
const SHORTS: ArrayPlace = ArrayPlace::Global(4);

const BYTES: ArrayPlace = ArrayPlace::Local(2);

const LENT: ArrayPlace = ArrayPlace::Lent(0);

// Ten globals, six locals, and the four elements that the frame is lent.
pub const PLACES: Places = Places {
    cells: 20,
    globals: 10,
    base: 10,
    locals: 6,
    lent: (16, 4),
};

// What the cells hold. In the last world some hold more bits than their kinds have, which a load leaves out.
pub static WORLDS: [[u64; 20]; 3] = [
    [
        0x7,
        0x2,
        0xffff_fff9,
        0xffff_ffff_ffff_ffff,
        0xa,
        0xffff_ffff_ffff_ffec,
        0x1e,
        0xffff_ffff_ffff_ffd8,
        0xc8,
        0xffff_ffff_ffff_ffff,
        0x3,
        0xffff_ffff_ffff_ff80,
        0x1,
        0x2,
        0xfa,
        0x3,
        0x3e8,
        0xffff_ffff_ffff_f830,
        0xbb8,
        0xfa0,
    ],
    [
        0xffff_ffff_8000_0000,
        0xffff_ffff_ffff_ffff,
        0x2,
        0x8000_0000_0000_0000,
        0x7fff,
        0xffff_ffff_ffff_8000,
        0x0,
        0x1,
        0xff,
        0x8000_0000_0000_0000,
        0x1,
        0x7f,
        0x4,
        0x3,
        0x0,
        0x0,
        0xffff_ffff_ffff_ffff,
        0x0,
        0x7fff_ffff,
        0xffff_ffff_8000_0000,
    ],
    [
        0x1234_5678_ffff_fff9,
        0x5555_0000_0000_0000,
        0x1f,
        0x7fff_ffff_ffff_ffff,
        0x1_0001,
        0x5,
        0x6,
        0x7,
        0xabcd_ef00,
        0x3,
        0xffff_fffb,
        0xff,
        0x9,
        0x8,
        0x7,
        0x6,
        0x2a,
        0x2b,
        0x2c,
        0x2d,
    ],
];

pub static ROWS: [(&'static [Part], [Option<i64>; 3]); 104] = [
    // constants
    (&[Number(-7, I)], [Some(-7), Some(-7), Some(-7)]),
    (&[Number(200, UC)], [Some(200), Some(200), Some(200)]),
    (&[Number(-1, UL)], [Some(-1), Some(-1), Some(-1)]),
    // loads
    (&[Global(0, I)], [Some(7), Some(-2147483648), Some(-7)]),
    (&[Global(2, U)], [Some(4294967289), Some(2), Some(31)]),
    (
        &[Global(3, L)],
        [Some(-1), Some(i64::MIN), Some(9223372036854775807)],
    ),
    (&[Global(8, UC)], [Some(200), Some(255), Some(0)]),
    (&[Global(9, UL)], [Some(-1), Some(i64::MIN), Some(3)]),
    (&[Local(0, I)], [Some(3), Some(1), Some(-5)]),
    (&[Local(1, C)], [Some(-128), Some(127), Some(-1)]),
    (&[Global(9, C)], [Some(-1), Some(0), Some(3)]),
    // elements
    (
        &[Number(0, I), Element(SHORTS, 4, S)],
        [Some(10), Some(32767), Some(1)],
    ),
    (
        &[Number(3, I), Element(SHORTS, 4, S)],
        [Some(-40), Some(1), Some(7)],
    ),
    (&[Number(4, I), Element(SHORTS, 4, S)], [None, None, None]),
    (&[Number(-1, I), Element(SHORTS, 4, S)], [None, None, None]),
    (&[Number(0, I), Element(SHORTS, 0, S)], [None, None, None]),
    (
        &[Local(0, I), Element(BYTES, 4, UC)],
        [Some(3), Some(3), None],
    ),
    (
        &[Global(1, I), Element(LENT, 4, I)],
        [Some(3000), None, Some(42)],
    ),
    (
        &[Global(2, U), Element(SHORTS, 4, S)],
        [None, Some(0), None],
    ),
    (
        &[Global(9, UL), Element(LENT, 4, I)],
        [None, None, Some(45)],
    ),
    (
        &[Local(0, I), Element(BYTES, 4, UC), Element(SHORTS, 4, S)],
        [Some(-40), Some(1), None],
    ),
    (
        &[Number(1, I), Global(1, I), Two(Div, I), Element(LENT, 4, I)],
        [Some(1000), None, None],
    ),
    // conversions
    (&[Global(0, I), To(C)], [Some(7), Some(0), Some(-7)]),
    (&[Global(0, I), To(UC)], [Some(7), Some(0), Some(249)]),
    (&[Global(0, I), To(S)], [Some(7), Some(0), Some(-7)]),
    (&[Global(0, I), To(US)], [Some(7), Some(0), Some(65529)]),
    (
        &[Global(0, I), To(I)],
        [Some(7), Some(-2147483648), Some(-7)],
    ),
    (
        &[Global(0, I), To(U)],
        [Some(7), Some(2147483648), Some(4294967289)],
    ),
    (
        &[Global(0, I), To(L)],
        [Some(7), Some(-2147483648), Some(-7)],
    ),
    (
        &[Global(0, I), To(UL)],
        [Some(7), Some(-2147483648), Some(-7)],
    ),
    (&[Global(8, UC), To(C)], [Some(-56), Some(-1), Some(0)]),
    (&[Global(8, UC), To(I)], [Some(200), Some(255), Some(0)]),
    (&[Local(1, C), To(UC)], [Some(128), Some(127), Some(255)]),
    (
        &[Local(1, C), To(US)],
        [Some(65408), Some(127), Some(65535)],
    ),
    (
        &[Local(1, C), To(U)],
        [Some(4294967168), Some(127), Some(4294967295)],
    ),
    (&[Local(1, C), To(UL)], [Some(-128), Some(127), Some(-1)]),
    (&[Local(1, C), To(L)], [Some(-128), Some(127), Some(-1)]),
    (
        &[Number(-2, S), To(US)],
        [Some(65534), Some(65534), Some(65534)],
    ),
    (&[Number(65535, US), To(S)], [Some(-1), Some(-1), Some(-1)]),
    (
        &[Number(65535, US), To(I)],
        [Some(65535), Some(65535), Some(65535)],
    ),
    (&[Global(2, U), To(I)], [Some(-7), Some(2), Some(31)]),
    (
        &[Global(2, U), To(L)],
        [Some(4294967289), Some(2), Some(31)],
    ),
    (
        &[Global(2, U), To(UL)],
        [Some(4294967289), Some(2), Some(31)],
    ),
    (&[Global(3, L), To(I)], [Some(-1), Some(0), Some(-1)]),
    (
        &[Global(3, L), To(UL)],
        [Some(-1), Some(i64::MIN), Some(9223372036854775807)],
    ),
    (&[Global(9, UL), To(L)], [Some(-1), Some(i64::MIN), Some(3)]),
    (&[Global(9, UL), To(S)], [Some(-1), Some(0), Some(3)]),
    (
        &[Global(0, I), To(UC), To(C), To(L)],
        [Some(7), Some(0), Some(-7)],
    ),
    // operators with one operand
    (
        &[Global(0, I), One(Neg, I)],
        [Some(-7), Some(-2147483648), Some(7)],
    ),
    (
        &[Global(3, L), One(Neg, L)],
        [Some(1), Some(i64::MIN), Some(-9223372036854775807)],
    ),
    (
        &[Global(2, U), One(Neg, U)],
        [Some(7), Some(4294967294), Some(4294967265)],
    ),
    (
        &[Global(0, I), One(Complement, I)],
        [Some(-8), Some(2147483647), Some(6)],
    ),
    (
        &[Global(2, U), One(Complement, U)],
        [Some(6), Some(4294967293), Some(4294967264)],
    ),
    (
        &[Global(9, UL), One(Complement, UL)],
        [Some(0), Some(9223372036854775807), Some(-4)],
    ),
    (&[Global(1, I), One(Not, I)], [Some(0), Some(0), Some(1)]),
    (&[Global(8, UC), One(Not, UC)], [Some(0), Some(0), Some(1)]),
    (&[Global(9, UL), One(Not, UL)], [Some(0), Some(0), Some(0)]),
    // operators with two operands
    (
        &[Global(0, I), Global(1, I), Two(Add, I)],
        [Some(9), Some(2147483647), Some(-7)],
    ),
    (
        &[Global(0, I), Global(1, I), Two(Sub, I)],
        [Some(5), Some(-2147483647), Some(-7)],
    ),
    (
        &[Global(0, I), Global(1, I), Two(Mul, I)],
        [Some(14), Some(-2147483648), Some(0)],
    ),
    (
        &[Global(0, I), Global(1, I), Two(Div, I)],
        [Some(3), None, None],
    ),
    (
        &[Global(0, I), Global(1, I), Two(Rem, I)],
        [Some(1), None, None],
    ),
    (
        &[Global(0, I), Global(1, I), Two(Shl, I)],
        [Some(28), None, Some(-7)],
    ),
    (
        &[Global(0, I), Global(1, I), Two(Shr, I)],
        [Some(1), None, Some(-7)],
    ),
    (
        &[Global(0, I), Global(1, I), Two(And, I)],
        [Some(2), Some(-2147483648), Some(0)],
    ),
    (
        &[Global(0, I), Global(1, I), Two(Or, I)],
        [Some(7), Some(-1), Some(-7)],
    ),
    (
        &[Global(0, I), Global(1, I), Two(Xor, I)],
        [Some(5), Some(2147483647), Some(-7)],
    ),
    (
        &[Global(0, I), Global(1, I), Two(Less, I)],
        [Some(0), Some(1), Some(1)],
    ),
    (
        &[Global(0, I), Global(1, I), Two(LessEqual, I)],
        [Some(0), Some(1), Some(1)],
    ),
    (
        &[Global(0, I), Global(1, I), Two(Greater, I)],
        [Some(1), Some(0), Some(0)],
    ),
    (
        &[Global(0, I), Global(1, I), Two(GreaterEqual, I)],
        [Some(1), Some(0), Some(0)],
    ),
    (
        &[Global(0, I), Global(1, I), Two(Equal, I)],
        [Some(0), Some(0), Some(0)],
    ),
    (
        &[Global(0, I), Global(1, I), Two(NotEqual, I)],
        [Some(1), Some(1), Some(1)],
    ),
    (
        &[Global(2, U), Global(0, I), To(U), Two(Mul, U)],
        [Some(4294967247), Some(0), Some(4294967079)],
    ),
    (
        &[Global(2, U), Global(0, I), To(U), Two(Div, U)],
        [Some(613566755), Some(0), Some(0)],
    ),
    (
        &[Global(2, U), Global(0, I), To(U), Two(Rem, U)],
        [Some(4), Some(2), Some(31)],
    ),
    (
        &[Global(2, U), Global(0, I), To(U), Two(Less, U)],
        [Some(0), Some(1), Some(1)],
    ),
    (
        &[Global(2, U), Number(1, I), Two(Shr, U)],
        [Some(2147483644), Some(1), Some(15)],
    ),
    (
        &[Global(0, I), To(U), Number(5, I), Two(Shr, U)],
        [Some(0), Some(67108864), Some(134217727)],
    ),
    (
        &[Local(1, C), To(L), Global(3, L), Two(Sub, L)],
        [Some(-127), Some(-9223372036854775681), Some(i64::MIN)],
    ),
    (
        &[Global(3, L), Number(10, L), Two(Div, L)],
        [Some(0), Some(-922337203685477580), Some(922337203685477580)],
    ),
    (
        &[Global(3, L), Number(10, L), Two(Rem, L)],
        [Some(-1), Some(-8), Some(7)],
    ),
    (
        &[Global(9, UL), Number(10, UL), Two(Div, UL)],
        [Some(1844674407370955161), Some(922337203685477580), Some(0)],
    ),
    (
        &[Global(9, UL), Global(3, L), To(UL), Two(Less, UL)],
        [Some(0), Some(0), Some(1)],
    ),
    (
        &[Global(3, L), Number(0, L), Two(Less, L)],
        [Some(1), Some(1), Some(0)],
    ),
    (
        &[Local(1, C), Number(-128, C), Two(Add, C)],
        [Some(0), Some(-1), Some(127)],
    ),
    (
        &[Global(8, UC), Number(100, UC), Two(Mul, UC)],
        [Some(32), Some(156), Some(0)],
    ),
    (
        &[Global(3, L), Local(0, I), Two(Shl, L)],
        [Some(-8), Some(0), None],
    ),
    (
        &[Number(1, I), Global(2, U), Two(Shl, I)],
        [None, Some(4), Some(-2147483648)],
    ),
    (
        &[Global(0, I), Global(3, L), Two(Shr, I)],
        [None, None, None],
    ),
    // traps
    (
        &[
            Global(0, I),
            Global(0, I),
            Global(0, I),
            Two(Sub, I),
            Two(Rem, I),
        ],
        [None, None, None],
    ),
    (
        &[Number(-2147483648, I), Global(1, I), Two(Div, I)],
        [Some(-1073741824), None, None],
    ),
    (
        &[Global(3, L), Global(1, I), To(L), Two(Div, L)],
        [Some(0), None, None],
    ),
    (
        &[Number(1, I), Number(32, I), Two(Shl, I)],
        [None, None, None],
    ),
    (
        &[Number(1, I), Number(31, I), Two(Shl, I)],
        [Some(-2147483648), Some(-2147483648), Some(-2147483648)],
    ),
    (
        &[Number(1, L), Number(63, I), Two(Shl, L)],
        [Some(i64::MIN), Some(i64::MIN), Some(i64::MIN)],
    ),
    (
        &[Number(1, L), Number(64, I), Two(Shr, L)],
        [None, None, None],
    ),
    (
        &[
            Number(1, I),
            Number(0, I),
            Two(Div, I),
            Number(1, I),
            Number(32, I),
            Two(Shl, I),
            Two(Add, I),
        ],
        [None, None, None],
    ),
    (
        &[
            Number(6, I),
            Global(1, I),
            Two(Div, I),
            Number(1, I),
            Local(0, I),
            Two(Shl, I),
            Two(Add, I),
        ],
        [Some(11), Some(-4), None],
    ),
    (
        &[Number(6, I), Global(1, I), Two(Div, I), One(Not, I)],
        [Some(0), Some(0), None],
    ),
    (
        &[Number(6, I), Global(1, I), Two(Div, I), To(L)],
        [Some(3), Some(-6), None],
    ),
    (
        &[
            Number(1, I),
            Local(0, I),
            Element(SHORTS, 4, S),
            To(I),
            Two(Less, I),
        ],
        [Some(0), Some(0), None],
    ),
    // several at once
    (
        &[
            Global(0, I),
            Number(3, I),
            Two(Mul, I),
            Local(0, I),
            Two(Add, I),
            Global(1, I),
            Number(1, I),
            Two(Or, I),
            Two(Rem, I),
            Local(0, I),
            Number(3, I),
            Two(And, I),
            Element(LENT, 4, I),
            Number(2, I),
            Two(Shr, I),
            Two(Xor, I),
        ],
        [Some(1000), Some(0), Some(11)],
    ),
    (
        &[
            Global(3, L),
            Global(2, U),
            To(L),
            Two(Mul, L),
            Local(1, C),
            To(L),
            Two(LessEqual, L),
            Global(8, UC),
            To(I),
            Number(255, I),
            Two(Equal, I),
            Two(Equal, I),
        ],
        [Some(0), Some(1), Some(1)],
    ),
];
