// Graphs with one fault in an edge each, made of the worked graphs.
use c_values::Kind;
use cfa::*;
use test_graphs::draft::{Change, Part, Row, Seen, Shape, Step, Word};

/// What is broken, the change of the edges and of the other parts, and the edge that is named, or none where no edge is
/// at fault.
pub type Fault = (&'static str, Change, Change, Option<u32>);

/// Faults in the graph `CALL`.
pub static NUMBERS_AND_ENDS: [Fault; 11] = [
    (
        "an edge's file",
        Change::Row(
            0,
            Row {
                file: 1,
                ends: (0, 1),
                function: 0,
                step: Step::Set(0, Word::Just(Part::Local(1))),
            },
        ),
        Change::Nothing,
        Some(0),
    ),
    (
        "a source that isn't there",
        Change::Row(
            3,
            Row {
                file: 0,
                ends: (99, 5),
                function: 1,
                step: Step::Guard(
                    Word::Two(BinaryOp::Greater, Part::Local(1), Part::Number(3)),
                    false,
                ),
            },
        ),
        Change::Nothing,
        Some(3),
    ),
    (
        "a target that isn't there",
        Change::Row(
            6,
            Row {
                file: 0,
                ends: (7, 99),
                function: 1,
                step: Step::Set(2, Word::Just(Part::Local(3))),
            },
        ),
        Change::Nothing,
        Some(6),
    ),
    (
        "an edge's function",
        Change::Row(
            1,
            Row {
                file: 0,
                ends: (2, 4),
                function: 9,
                step: Step::Set(2, Word::Just(Part::Number(0))),
            },
        ),
        Change::Nothing,
        Some(1),
    ),
    (
        "a callee",
        Change::Row(
            4,
            Row {
                file: 0,
                ends: (6, 0),
                function: 1,
                step: Step::Call(9, &[Word::Just(Part::Local(1))], &[]),
            },
        ),
        Change::Nothing,
        Some(4),
    ),
    (
        "a return from no edge",
        Change::Row(
            6,
            Row {
                file: 0,
                ends: (7, 5),
                function: 1,
                step: Step::Back(99, 2),
            },
        ),
        Change::Nothing,
        Some(6),
    ),
    (
        "an input function",
        Change::Row(
            1,
            Row {
                file: 0,
                ends: (2, 4),
                function: 1,
                step: Step::Answer(0),
            },
        ),
        Change::Nothing,
        Some(1),
    ),
    (
        "a source in another function",
        Change::Row(
            7,
            Row {
                file: 0,
                ends: (0, 3),
                function: 1,
                step: Step::Set(0, Word::Just(Part::Local(2))),
            },
        ),
        Change::Nothing,
        Some(7),
    ),
    (
        "a target in another function",
        Change::Row(
            6,
            Row {
                file: 0,
                ends: (7, 1),
                function: 1,
                step: Step::Set(2, Word::Just(Part::Local(3))),
            },
        ),
        Change::Nothing,
        Some(6),
    ),
    (
        "a call that misses the entry",
        Change::Row(
            4,
            Row {
                file: 0,
                ends: (6, 2),
                function: 1,
                step: Step::Call(0, &[Word::Just(Part::Local(1))], &[]),
            },
        ),
        Change::Nothing,
        Some(4),
    ),
    (
        "a return that misses the exit",
        Change::Row(
            5,
            Row {
                file: 0,
                ends: (3, 7),
                function: 1,
                step: Step::Back(4, 3),
            },
        ),
        Change::Nothing,
        Some(5),
    ),
];

/// Faults in the graph `CALL`.
pub static PLACES_AND_KINDS: [Fault; 10] = [
    (
        "a place past the frame",
        Change::Row(
            1,
            Row {
                file: 0,
                ends: (2, 4),
                function: 1,
                step: Step::Set(4, Word::Just(Part::Number(0))),
            },
        ),
        Change::Nothing,
        Some(1),
    ),
    (
        "a place past the globals",
        Change::Row(
            1,
            Row {
                file: 0,
                ends: (2, 4),
                function: 1,
                step: Step::SetGlobal(0),
            },
        ),
        Change::Nothing,
        Some(1),
    ),
    (
        "an array past the frame",
        Change::Row(
            1,
            Row {
                file: 0,
                ends: (2, 4),
                function: 1,
                step: Step::Clear(ArrayPlace::Local(2), 3),
            },
        ),
        Change::Nothing,
        Some(1),
    ),
    (
        "an array past the globals",
        Change::Row(
            1,
            Row {
                file: 0,
                ends: (2, 4),
                function: 1,
                step: Step::Clear(ArrayPlace::Global(0), 1),
            },
        ),
        Change::Nothing,
        Some(1),
    ),
    (
        "a place in an index",
        Change::Row(
            1,
            Row {
                file: 0,
                ends: (2, 4),
                function: 1,
                step: Step::Set(2, Word::Element(ArrayPlace::Local(2), Part::Local(9), 1)),
            },
        ),
        Change::Nothing,
        Some(1),
    ),
    (
        "a left operand's kind",
        Change::Row(
            1,
            Row {
                file: 0,
                ends: (2, 4),
                function: 1,
                step: Step::Set(2, Word::Two(BinaryOp::Add, Part::Long, Part::Number(1))),
            },
        ),
        Change::Nothing,
        Some(1),
    ),
    (
        "a right operand's kind",
        Change::Row(
            1,
            Row {
                file: 0,
                ends: (2, 4),
                function: 1,
                step: Step::Set(2, Word::Two(BinaryOp::Add, Part::Number(1), Part::Long)),
            },
        ),
        Change::Nothing,
        Some(1),
    ),
    (
        "an operand's kind",
        Change::Row(
            1,
            Row {
                file: 0,
                ends: (2, 4),
                function: 1,
                step: Step::Set(2, Word::Negated(Part::Long)),
            },
        ),
        Change::Nothing,
        Some(1),
    ),
    (
        "a constant that is no value",
        Change::Row(
            1,
            Row {
                file: 0,
                ends: (2, 4),
                function: 1,
                step: Step::Set(2, Word::Just(Part::Number(2147483648))),
            },
        ),
        Change::Nothing,
        Some(1),
    ),
    (
        "a load of no kind",
        Change::Row(
            1,
            Row {
                file: 0,
                ends: (2, 4),
                function: 1,
                step: Step::Set(2, Word::Just(Part::NoKind(1))),
            },
        ),
        Change::Nothing,
        Some(1),
    ),
];

/// Faults in the graph `CALL`.
pub static CALLS_AND_RETURNS: [Fault; 10] = [
    (
        "a word too few",
        Change::Row(
            4,
            Row {
                file: 0,
                ends: (6, 0),
                function: 1,
                step: Step::Call(0, &[], &[]),
            },
        ),
        Change::Nothing,
        Some(4),
    ),
    (
        "a word too many",
        Change::Row(
            4,
            Row {
                file: 0,
                ends: (6, 0),
                function: 1,
                step: Step::Call(
                    0,
                    &[Word::Just(Part::Local(1)), Word::Just(Part::Local(1))],
                    &[],
                ),
            },
        ),
        Change::Nothing,
        Some(4),
    ),
    (
        "a word's kind",
        Change::Row(
            4,
            Row {
                file: 0,
                ends: (6, 0),
                function: 1,
                step: Step::Call(0, &[Word::ToLong(Part::Local(1))], &[]),
            },
        ),
        Change::Nothing,
        Some(4),
    ),
    (
        "an array too many",
        Change::Row(
            4,
            Row {
                file: 0,
                ends: (6, 0),
                function: 1,
                step: Step::Call(0, &[Word::Just(Part::Local(1))], &[ArrayPlace::Local(1)]),
            },
        ),
        Change::Nothing,
        Some(4),
    ),
    (
        "a call without a return",
        Change::Row(
            5,
            Row {
                file: 0,
                ends: (1, 7),
                function: 1,
                step: Step::Skip,
            },
        ),
        Change::Nothing,
        Some(4),
    ),
    (
        "a return in another function",
        Change::Row(
            5,
            Row {
                file: 0,
                ends: (1, 7),
                function: 0,
                step: Step::Back(4, 3),
            },
        ),
        Change::Nothing,
        Some(4),
    ),
    (
        "a return from an edge that is no call",
        Change::Row(
            6,
            Row {
                file: 0,
                ends: (7, 5),
                function: 1,
                step: Step::Back(5, 2),
            },
        ),
        Change::Nothing,
        Some(6),
    ),
    (
        "a result that isn't given",
        Change::Nothing,
        Change::Shape(
            0,
            Shape {
                name: "g",
                ends: (0, 1),
                parameters: &[Kind::INT],
                arrays: &[],
                result: None,
                cells: 2,
            },
        ),
        Some(5),
    ),
    (
        "a call at the end",
        Change::MoreRow(Row {
            file: 0,
            ends: (5, 0),
            function: 1,
            step: Step::Call(0, &[Word::Just(Part::Local(1))], &[]),
        }),
        Change::Nothing,
        Some(8),
    ),
    (
        "an edge and another part",
        Change::Row(
            6,
            Row {
                file: 0,
                ends: (7, 99),
                function: 1,
                step: Step::Set(2, Word::Just(Part::Local(3))),
            },
        ),
        Change::Shape(
            1,
            Shape {
                name: "f",
                ends: (2, 3),
                parameters: &[Kind::INT],
                arrays: &[],
                result: Some(Kind::INT),
                cells: 16385,
            },
        ),
        Some(6),
    ),
];

/// Faults in the graph `ARRAY`.
pub static ARRAYS: [Fault; 7] = [
    (
        "an array parameter's length",
        Change::Row(
            0,
            Row {
                file: 0,
                ends: (0, 1),
                function: 0,
                step: Step::Clear(ArrayPlace::Lent(0), 2),
            },
        ),
        Change::Nothing,
        Some(0),
    ),
    (
        "an array parameter that isn't there",
        Change::Row(
            0,
            Row {
                file: 0,
                ends: (0, 1),
                function: 0,
                step: Step::Clear(ArrayPlace::Lent(1), 3),
            },
        ),
        Change::Nothing,
        Some(0),
    ),
    (
        "an element's length",
        Change::Row(
            0,
            Row {
                file: 0,
                ends: (0, 1),
                function: 0,
                step: Step::Set(0, Word::Element(ArrayPlace::Lent(0), Part::Number(1), 2)),
            },
        ),
        Change::Nothing,
        Some(0),
    ),
    (
        "an array argument past the frame",
        Change::Row(
            3,
            Row {
                file: 0,
                ends: (5, 0),
                function: 1,
                step: Step::Call(0, &[], &[ArrayPlace::Local(4)]),
            },
        ),
        Change::Nothing,
        Some(3),
    ),
    (
        "an array too few",
        Change::Row(
            3,
            Row {
                file: 0,
                ends: (5, 0),
                function: 1,
                step: Step::Call(0, &[], &[]),
            },
        ),
        Change::Nothing,
        Some(3),
    ),
    (
        "a lent variable's length",
        Change::Nothing,
        Change::Seen(
            0,
            Seen {
                scope: 0,
                length: Some(2),
                place: VariablePlace::Lent(0),
            },
        ),
        None,
    ),
    (
        "a lent variable of no length",
        Change::Nothing,
        Change::Seen(
            0,
            Seen {
                scope: 0,
                length: None,
                place: VariablePlace::Lent(0),
            },
        ),
        None,
    ),
];
