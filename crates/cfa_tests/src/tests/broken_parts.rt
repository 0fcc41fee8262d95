// Graphs with one fault in another part each, made of the worked graphs.
use super::broken_edges::Fault;
use c_values::Kind;
use cfa::*;
use test_graphs::draft::{Change, NO_KIND, Part, Row, Seen, Shape, Step, Word};

/// Faults in the graph `CALL`.
pub static NODES_AND_FUNCTIONS: [Fault; 9] = [
    (
        "a node's file",
        Change::Nothing,
        Change::Node(
            7,
            Node {
                function: 1,
                file: 1,
                line: 5,
                scope: 2,
                depth: 0,
            },
        ),
        None,
    ),
    (
        "a node's scope",
        Change::Nothing,
        Change::Node(
            7,
            Node {
                function: 1,
                file: 0,
                line: 5,
                scope: 3,
                depth: 0,
            },
        ),
        None,
    ),
    (
        "a node's function",
        Change::Nothing,
        Change::MoreNode(Node {
            function: 2,
            file: 0,
            line: 1,
            scope: 0,
            depth: 0,
        }),
        None,
    ),
    (
        "an entry in another function",
        Change::Nothing,
        Change::Shape(
            1,
            Shape {
                name: "f",
                ends: (0, 3),
                parameters: &[Kind::INT],
                arrays: &[],
                result: Some(Kind::INT),
                cells: 4,
            },
        ),
        None,
    ),
    (
        "an entry that isn't there",
        Change::Nothing,
        Change::Shape(
            1,
            Shape {
                name: "f",
                ends: (99, 3),
                parameters: &[Kind::INT],
                arrays: &[],
                result: Some(Kind::INT),
                cells: 4,
            },
        ),
        None,
    ),
    (
        "an exit in another function",
        Change::Nothing,
        Change::Shape(
            1,
            Shape {
                name: "f",
                ends: (2, 1),
                parameters: &[Kind::INT],
                arrays: &[],
                result: Some(Kind::INT),
                cells: 4,
            },
        ),
        None,
    ),
    (
        "too few cells",
        Change::Nothing,
        Change::Shape(
            1,
            Shape {
                name: "f",
                ends: (2, 3),
                parameters: &[Kind::INT, Kind::INT, Kind::INT, Kind::INT],
                arrays: &[],
                result: Some(Kind::INT),
                cells: 4,
            },
        ),
        None,
    ),
    (
        "too many cells",
        Change::Nothing,
        Change::Shape(
            1,
            Shape {
                name: "f",
                ends: (2, 3),
                parameters: &[Kind::INT],
                arrays: &[],
                result: Some(Kind::INT),
                cells: 16385,
            },
        ),
        None,
    ),
    (
        "too many globals",
        Change::Nothing,
        Change::Globals(16385, Kind::INT),
        None,
    ),
];

/// Faults in the graph `CALL`.
pub static KINDS_AND_SCOPES: [Fault; 9] = [
    (
        "a result of no kind",
        Change::Nothing,
        Change::Shape(
            1,
            Shape {
                name: "f",
                ends: (2, 3),
                parameters: &[Kind::INT],
                arrays: &[],
                result: Some(NO_KIND),
                cells: 4,
            },
        ),
        None,
    ),
    (
        "a parameter of no kind",
        Change::Nothing,
        Change::Shape(
            1,
            Shape {
                name: "f",
                ends: (2, 3),
                parameters: &[NO_KIND],
                arrays: &[],
                result: Some(Kind::INT),
                cells: 4,
            },
        ),
        None,
    ),
    (
        "an answer of no kind",
        Change::Nothing,
        Change::Input(NO_KIND),
        None,
    ),
    (
        "a global of no kind",
        Change::Nothing,
        Change::Globals(1, NO_KIND),
        None,
    ),
    (
        "a variable past the frame",
        Change::Nothing,
        Change::Seen(
            2,
            Seen {
                scope: 2,
                length: None,
                place: VariablePlace::Local(4),
            },
        ),
        None,
    ),
    (
        "a variable partly past the frame",
        Change::Nothing,
        Change::Seen(
            2,
            Seen {
                scope: 2,
                length: Some(3),
                place: VariablePlace::Local(2),
            },
        ),
        None,
    ),
    (
        "a variable past the globals",
        Change::Nothing,
        Change::Seen(
            2,
            Seen {
                scope: 2,
                length: None,
                place: VariablePlace::Global(0),
            },
        ),
        None,
    ),
    (
        "a variable past the globals that no node sees",
        Change::Nothing,
        Change::MoreScope(Seen {
            scope: 9,
            length: None,
            place: VariablePlace::Global(0),
        }),
        None,
    ),
    (
        "a variable lent by none",
        Change::Nothing,
        Change::Seen(
            2,
            Seen {
                scope: 2,
                length: Some(3),
                place: VariablePlace::Lent(0),
            },
        ),
        None,
    ),
];

/// Faults in the graph `CALL`.
pub static WAYS: [Fault; 8] = [
    (
        "an edge from an exit",
        Change::MoreRow(Row {
            file: 0,
            ends: (3, 3),
            function: 1,
            step: Step::Skip,
        }),
        Change::Nothing,
        None,
    ),
    (
        "a node with no way on",
        Change::Nothing,
        Change::MoreNode(Node {
            function: 1,
            file: 0,
            line: 1,
            scope: 1,
            depth: 0,
        }),
        None,
    ),
    (
        "a node with two ways",
        Change::MoreRow(Row {
            file: 0,
            ends: (7, 5),
            function: 1,
            step: Step::Skip,
        }),
        Change::Nothing,
        None,
    ),
    (
        "a guard alone",
        Change::Row(
            6,
            Row {
                file: 0,
                ends: (7, 5),
                function: 1,
                step: Step::Guard(
                    Word::Two(BinaryOp::Greater, Part::Local(1), Part::Number(3)),
                    true,
                ),
            },
        ),
        Change::Nothing,
        None,
    ),
    (
        "two guards of truth",
        Change::Row(
            3,
            Row {
                file: 0,
                ends: (4, 5),
                function: 1,
                step: Step::Guard(
                    Word::Two(BinaryOp::Greater, Part::Local(1), Part::Number(3)),
                    true,
                ),
            },
        ),
        Change::Nothing,
        None,
    ),
    (
        "two guards of falsehood",
        Change::Row(
            2,
            Row {
                file: 0,
                ends: (4, 6),
                function: 1,
                step: Step::Guard(
                    Word::Two(BinaryOp::Greater, Part::Local(1), Part::Number(3)),
                    false,
                ),
            },
        ),
        Change::Nothing,
        None,
    ),
    (
        "two guards of other tests",
        Change::Row(
            3,
            Row {
                file: 0,
                ends: (4, 5),
                function: 1,
                step: Step::Guard(
                    Word::Two(BinaryOp::Greater, Part::Local(1), Part::Number(4)),
                    false,
                ),
            },
        ),
        Change::Nothing,
        None,
    ),
    (
        "three ways",
        Change::MoreRow(Row {
            file: 0,
            ends: (4, 5),
            function: 1,
            step: Step::Skip,
        }),
        Change::Nothing,
        None,
    ),
];
