// Graphs of small programs, written out by hand.
use crate::draft::{Draft, Part, Row, Seen, Shape, Step, Word};
use c_values::Kind;
use cfa::*;

/// `int f(int x) { if (x > 10) { return 1; } return 0; }`, on six lines.
pub static BRANCH: Draft = Draft {
    nodes: &[
        Node {
            function: 0,
            file: 0,
            line: 1,
            scope: 0,
            depth: 0,
        },
        Node {
            function: 0,
            file: 0,
            line: 6,
            scope: 0,
            depth: 0,
        },
        Node {
            function: 0,
            file: 0,
            line: 5,
            scope: 0,
            depth: 0,
        },
        Node {
            function: 0,
            file: 0,
            line: 2,
            scope: 0,
            depth: 0,
        },
    ],
    rows: &[
        Row {
            file: 0,
            ends: (0, 3),
            function: 0,
            step: Step::Guard(
                Word::Two(BinaryOp::Greater, Part::Local(1), Part::Number(10)),
                true,
            ),
        },
        Row {
            file: 0,
            ends: (0, 2),
            function: 0,
            step: Step::Guard(
                Word::Two(BinaryOp::Greater, Part::Local(1), Part::Number(10)),
                false,
            ),
        },
        Row {
            file: 0,
            ends: (3, 1),
            function: 0,
            step: Step::Set(0, Word::Just(Part::Number(1))),
        },
        Row {
            file: 0,
            ends: (2, 1),
            function: 0,
            step: Step::Set(0, Word::Just(Part::Number(0))),
        },
    ],
    shapes: &[Shape {
        name: "f",
        ends: (0, 1),
        parameters: &[Kind::INT],
        arrays: &[],
        result: Some(Kind::INT),
        cells: 2,
    }],
    scopes: 1,
    seen: &[Seen {
        scope: 0,
        length: None,
        place: VariablePlace::Local(1),
    }],
};

/// `int g(int v) { return v; }` and
/// `int f(int x) { int y = 0; if (x > 3) { y = g(x); } return y; }`, on eight lines.
pub static CALL: Draft = Draft {
    nodes: &[
        Node {
            function: 0,
            file: 0,
            line: 1,
            scope: 0,
            depth: 0,
        },
        Node {
            function: 0,
            file: 0,
            line: 1,
            scope: 0,
            depth: 0,
        },
        Node {
            function: 1,
            file: 0,
            line: 2,
            scope: 1,
            depth: 0,
        },
        Node {
            function: 1,
            file: 0,
            line: 8,
            scope: 1,
            depth: 0,
        },
        Node {
            function: 1,
            file: 0,
            line: 4,
            scope: 2,
            depth: 0,
        },
        Node {
            function: 1,
            file: 0,
            line: 7,
            scope: 2,
            depth: 0,
        },
        Node {
            function: 1,
            file: 0,
            line: 4,
            scope: 2,
            depth: 0,
        },
        Node {
            function: 1,
            file: 0,
            line: 5,
            scope: 2,
            depth: 0,
        },
    ],
    rows: &[
        Row {
            file: 0,
            ends: (0, 1),
            function: 0,
            step: Step::Set(0, Word::Just(Part::Local(1))),
        },
        Row {
            file: 0,
            ends: (2, 4),
            function: 1,
            step: Step::Set(2, Word::Just(Part::Number(0))),
        },
        Row {
            file: 0,
            ends: (4, 6),
            function: 1,
            step: Step::Guard(
                Word::Two(BinaryOp::Greater, Part::Local(1), Part::Number(3)),
                true,
            ),
        },
        Row {
            file: 0,
            ends: (4, 5),
            function: 1,
            step: Step::Guard(
                Word::Two(BinaryOp::Greater, Part::Local(1), Part::Number(3)),
                false,
            ),
        },
        Row {
            file: 0,
            ends: (6, 0),
            function: 1,
            step: Step::Call(0, &[Word::Just(Part::Local(1))], &[]),
        },
        Row {
            file: 0,
            ends: (1, 7),
            function: 1,
            step: Step::Back(4, 3),
        },
        Row {
            file: 0,
            ends: (7, 5),
            function: 1,
            step: Step::Set(2, Word::Just(Part::Local(3))),
        },
        Row {
            file: 0,
            ends: (5, 3),
            function: 1,
            step: Step::Set(0, Word::Just(Part::Local(2))),
        },
    ],
    shapes: &[
        Shape {
            name: "g",
            ends: (0, 1),
            parameters: &[Kind::INT],
            arrays: &[],
            result: Some(Kind::INT),
            cells: 2,
        },
        Shape {
            name: "f",
            ends: (2, 3),
            parameters: &[Kind::INT],
            arrays: &[],
            result: Some(Kind::INT),
            cells: 4,
        },
    ],
    scopes: 3,
    seen: &[
        Seen {
            scope: 0,
            length: None,
            place: VariablePlace::Local(1),
        },
        Seen {
            scope: 1,
            length: None,
            place: VariablePlace::Local(1),
        },
        Seen {
            scope: 2,
            length: None,
            place: VariablePlace::Local(2),
        },
        Seen {
            scope: 2,
            length: None,
            place: VariablePlace::Local(1),
        },
    ],
};

/// `int f(int n) { int i = 0; while (i < n) { i = i + 1; } return i; }`.
pub static LOOP: Draft = Draft {
    nodes: &[
        Node {
            function: 0,
            file: 0,
            line: 1,
            scope: 0,
            depth: 0,
        },
        Node {
            function: 0,
            file: 0,
            line: 1,
            scope: 0,
            depth: 0,
        },
        Node {
            function: 0,
            file: 0,
            line: 1,
            scope: 1,
            depth: 0,
        },
        Node {
            function: 0,
            file: 0,
            line: 1,
            scope: 1,
            depth: 0,
        },
        Node {
            function: 0,
            file: 0,
            line: 1,
            scope: 1,
            depth: 1,
        },
        Node {
            function: 0,
            file: 0,
            line: 1,
            scope: 1,
            depth: 1,
        },
        Node {
            function: 0,
            file: 0,
            line: 1,
            scope: 1,
            depth: 1,
        },
    ],
    rows: &[
        Row {
            file: 0,
            ends: (0, 2),
            function: 0,
            step: Step::Set(2, Word::Just(Part::Number(0))),
        },
        Row {
            file: 0,
            ends: (2, 4),
            function: 0,
            step: Step::Skip,
        },
        Row {
            file: 0,
            ends: (4, 5),
            function: 0,
            step: Step::Guard(
                Word::Two(BinaryOp::Less, Part::Local(2), Part::Local(1)),
                true,
            ),
        },
        Row {
            file: 0,
            ends: (4, 3),
            function: 0,
            step: Step::Guard(
                Word::Two(BinaryOp::Less, Part::Local(2), Part::Local(1)),
                false,
            ),
        },
        Row {
            file: 0,
            ends: (5, 6),
            function: 0,
            step: Step::Set(2, Word::Two(BinaryOp::Add, Part::Local(2), Part::Number(1))),
        },
        Row {
            file: 0,
            ends: (6, 4),
            function: 0,
            step: Step::Skip,
        },
        Row {
            file: 0,
            ends: (3, 1),
            function: 0,
            step: Step::Set(0, Word::Just(Part::Local(2))),
        },
    ],
    shapes: &[Shape {
        name: "f",
        ends: (0, 1),
        parameters: &[Kind::INT],
        arrays: &[],
        result: Some(Kind::INT),
        cells: 3,
    }],
    scopes: 2,
    seen: &[
        Seen {
            scope: 0,
            length: None,
            place: VariablePlace::Local(1),
        },
        Seen {
            scope: 1,
            length: None,
            place: VariablePlace::Local(2),
        },
        Seen {
            scope: 1,
            length: None,
            place: VariablePlace::Local(1),
        },
    ],
};

/// `int f(int n) { if (n <= 0) { return 0; } return 1 + f(n - 1); }`.
pub static RECURSION: Draft = Draft {
    nodes: &[
        Node {
            function: 0,
            file: 0,
            line: 1,
            scope: 0,
            depth: 0,
        },
        Node {
            function: 0,
            file: 0,
            line: 1,
            scope: 0,
            depth: 0,
        },
        Node {
            function: 0,
            file: 0,
            line: 1,
            scope: 0,
            depth: 0,
        },
        Node {
            function: 0,
            file: 0,
            line: 1,
            scope: 0,
            depth: 0,
        },
        Node {
            function: 0,
            file: 0,
            line: 1,
            scope: 0,
            depth: 0,
        },
    ],
    rows: &[
        Row {
            file: 0,
            ends: (0, 3),
            function: 0,
            step: Step::Guard(
                Word::Two(BinaryOp::LessEqual, Part::Local(1), Part::Number(0)),
                true,
            ),
        },
        Row {
            file: 0,
            ends: (0, 2),
            function: 0,
            step: Step::Guard(
                Word::Two(BinaryOp::LessEqual, Part::Local(1), Part::Number(0)),
                false,
            ),
        },
        Row {
            file: 0,
            ends: (3, 1),
            function: 0,
            step: Step::Set(0, Word::Just(Part::Number(0))),
        },
        Row {
            file: 0,
            ends: (2, 0),
            function: 0,
            step: Step::Call(
                0,
                &[Word::Two(BinaryOp::Sub, Part::Local(1), Part::Number(1))],
                &[],
            ),
        },
        Row {
            file: 0,
            ends: (1, 4),
            function: 0,
            step: Step::Back(3, 2),
        },
        Row {
            file: 0,
            ends: (4, 1),
            function: 0,
            step: Step::Set(0, Word::Two(BinaryOp::Add, Part::Number(1), Part::Local(2))),
        },
    ],
    shapes: &[Shape {
        name: "f",
        ends: (0, 1),
        parameters: &[Kind::INT],
        arrays: &[],
        result: Some(Kind::INT),
        cells: 3,
    }],
    scopes: 1,
    seen: &[Seen {
        scope: 0,
        length: None,
        place: VariablePlace::Local(1),
    }],
};

/// `int g(int a[3]) { return a[2]; }` and `int f(int x) { int b[3]; b[x] = 7; return g(b); }`.
pub static ARRAY: Draft = Draft {
    nodes: &[
        Node {
            function: 0,
            file: 0,
            line: 1,
            scope: 0,
            depth: 0,
        },
        Node {
            function: 0,
            file: 0,
            line: 1,
            scope: 0,
            depth: 0,
        },
        Node {
            function: 1,
            file: 0,
            line: 1,
            scope: 1,
            depth: 0,
        },
        Node {
            function: 1,
            file: 0,
            line: 1,
            scope: 1,
            depth: 0,
        },
        Node {
            function: 1,
            file: 0,
            line: 1,
            scope: 2,
            depth: 0,
        },
        Node {
            function: 1,
            file: 0,
            line: 1,
            scope: 2,
            depth: 0,
        },
        Node {
            function: 1,
            file: 0,
            line: 1,
            scope: 2,
            depth: 0,
        },
    ],
    rows: &[
        Row {
            file: 0,
            ends: (0, 1),
            function: 0,
            step: Step::Set(0, Word::Element(ArrayPlace::Lent(0), Part::Number(2), 3)),
        },
        Row {
            file: 0,
            ends: (2, 4),
            function: 1,
            step: Step::Clear(ArrayPlace::Local(2), 3),
        },
        Row {
            file: 0,
            ends: (4, 5),
            function: 1,
            step: Step::Store(ArrayPlace::Local(2), Part::Local(1), 3),
        },
        Row {
            file: 0,
            ends: (5, 0),
            function: 1,
            step: Step::Call(0, &[], &[ArrayPlace::Local(2)]),
        },
        Row {
            file: 0,
            ends: (1, 6),
            function: 1,
            step: Step::Back(3, 5),
        },
        Row {
            file: 0,
            ends: (6, 3),
            function: 1,
            step: Step::Set(0, Word::Just(Part::Local(5))),
        },
    ],
    shapes: &[
        Shape {
            name: "g",
            ends: (0, 1),
            parameters: &[],
            arrays: &[3],
            result: Some(Kind::INT),
            cells: 1,
        },
        Shape {
            name: "f",
            ends: (2, 3),
            parameters: &[Kind::INT],
            arrays: &[],
            result: Some(Kind::INT),
            cells: 6,
        },
    ],
    scopes: 3,
    seen: &[
        Seen {
            scope: 0,
            length: Some(3),
            place: VariablePlace::Lent(0),
        },
        Seen {
            scope: 1,
            length: None,
            place: VariablePlace::Local(1),
        },
        Seen {
            scope: 2,
            length: Some(3),
            place: VariablePlace::Local(2),
        },
        Seen {
            scope: 2,
            length: None,
            place: VariablePlace::Local(1),
        },
    ],
};
