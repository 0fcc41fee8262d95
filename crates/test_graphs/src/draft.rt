// Graphs as plain tables, and the parts that they stand for.
use c_values::Kind;
use cfa::*;
use containers::{Boxed, Vector};
use fq_core::{Memory, Name, Span};
use std::alloc::Global;

/// An operand of kind int, or of another.
#[derive(Clone, Copy)]
pub enum Part {
    Number(u64),
    Local(u32),
    /// 1 of kind long.
    Long,
    /// A load of a kind that is none.
    NoKind(u32),
}

/// An expression.
#[derive(Clone, Copy)]
pub enum Word {
    Just(Part),
    Two(BinaryOp, Part, Part),
    Negated(Part),
    ToLong(Part),
    Element(ArrayPlace, Part, u32),
}

/// An operation.
#[derive(Clone, Copy)]
pub enum Step {
    Skip,
    Set(u32, Word),
    SetGlobal(u32),
    Store(ArrayPlace, Part, u32),
    Clear(ArrayPlace, u32),
    Guard(Word, bool),
    Call(u32, &'static [Word], &'static [ArrayPlace]),
    Back(u32, u32),
    Answer(u32),
}

/// An edge.
#[derive(Clone, Copy)]
pub struct Row {
    pub file: u32,
    pub ends: (u32, u32),
    pub function: u32,
    pub step: Step,
}

/// A function.
#[derive(Clone, Copy)]
pub struct Shape {
    pub name: &'static str,
    pub ends: (u32, u32),
    pub parameters: &'static [Kind],
    pub arrays: &'static [u32],
    pub result: Option<Kind>,
    pub cells: u32,
}

/// A variable that a scope has: the number of the scope, the variable's length and its place.
#[derive(Clone, Copy)]
pub struct Seen {
    pub scope: u32,
    pub length: Option<u32>,
    pub place: VariablePlace,
}

/// A graph.
#[derive(Clone, Copy)]
pub struct Draft {
    pub nodes: &'static [Node],
    pub rows: &'static [Row],
    pub shapes: &'static [Shape],
    pub scopes: u32,
    pub seen: &'static [Seen],
}

/// What differs from a graph, by the place in its table, or at the end of it.
#[derive(Clone, Copy)]
pub enum Change {
    Nothing,
    Node(usize, Node),
    MoreNode(Node),
    Row(usize, Row),
    MoreRow(Row),
    Shape(usize, Shape),
    Seen(usize, Seen),
    /// One scope more, in which a variable with this length and place is seen.
    MoreScope(Seen),
    Globals(usize, Kind),
    Input(Kind),
}

pub const NO_KIND: Kind = Kind {
    width: 7,
    signed: true,
};

fn operand(part: Part) -> Expr {
    match part {
        Part::Number(value) => Expr::Constant(value, Kind::INT),
        Part::Local(cell) => Expr::Load(CellPlace::Local(cell), Kind::INT),
        Part::Long => Expr::Constant(1, Kind::LONG),
        Part::NoKind(cell) => Expr::Load(CellPlace::Local(cell), NO_KIND),
    }
}

fn element(
    alloc: Global,
    array: ArrayPlace,
    index: Part,
    length: u32,
) -> Result<CellPlace, Memory> {
    let index = Boxed::new(alloc, operand(index))?;
    Ok(CellPlace::Element {
        array,
        index,
        length,
    })
}

fn expression(alloc: Global, word: Word) -> Result<Expr, Memory> {
    match word {
        Word::Just(only) => Ok(operand(only)),
        Word::Two(op, left, right) => {
            let left = Boxed::new(alloc, operand(left))?;
            let right = Boxed::new(alloc, operand(right))?;
            Ok(Expr::Binary(op, left, right, Kind::INT))
        }
        Word::Negated(only) => {
            let operand = Boxed::new(alloc, operand(only))?;
            Ok(Expr::Unary(UnaryOp::Neg, operand, Kind::INT))
        }
        Word::ToLong(only) => {
            let operand = Boxed::new(alloc, operand(only))?;
            Ok(Expr::Convert(operand, Kind::LONG))
        }
        Word::Element(array, index, length) => {
            let place = element(alloc, array, index, length)?;
            Ok(Expr::Load(place, Kind::INT))
        }
    }
}

fn expressions(alloc: Global, words: &[Word]) -> Result<Vector<Expr>, Memory> {
    let mut list = Vector::new(alloc);
    for word in words {
        list.push(expression(alloc, *word)?)?;
    }
    Ok(list)
}

fn call(
    alloc: Global,
    callee: u32,
    words: &[Word],
    arrays: &[ArrayPlace],
) -> Result<Operation, Memory> {
    let words = expressions(alloc, words)?;
    let arrays = Vector::from_vec(Vec::from_slice(alloc, arrays)?);
    Ok(Operation::Call {
        callee,
        words,
        arrays,
    })
}

fn assign(place: CellPlace, value: Expr) -> Operation {
    Operation::Assign { place, value }
}

fn operation(alloc: Global, step: Step) -> Result<Operation, Memory> {
    match step {
        Step::Skip => Ok(Operation::Skip),
        Step::Set(cell, word) => Ok(assign(CellPlace::Local(cell), expression(alloc, word)?)),
        Step::SetGlobal(cell) => Ok(assign(CellPlace::Global(cell), operand(Part::Number(0)))),
        Step::Store(array, index, length) => Ok(assign(
            element(alloc, array, index, length)?,
            operand(Part::Number(7)),
        )),
        Step::Clear(array, length) => Ok(Operation::Clear { array, length }),
        Step::Guard(word, truth) => {
            let test = expression(alloc, word)?;
            Ok(Operation::Guard { test, truth })
        }
        Step::Call(callee, words, arrays) => call(alloc, callee, words, arrays),
        Step::Back(call, cell) => {
            let dest = Some(CellPlace::Local(cell));
            Ok(Operation::Return { call, dest })
        }
        Step::Answer(input) => Ok(Operation::Answer { input, dest: None }),
    }
}

fn edge(alloc: Global, row: Row) -> Result<Edge, Memory> {
    Ok(Edge {
        source: row.ends.0,
        target: row.ends.1,
        function: row.function,
        operation: operation(alloc, row.step)?,
        span: Span {
            file: row.file,
            line: 1,
            column: 1,
            start: 0,
            end: 1,
        },
        statement: StatementKind::Empty,
        decision: false,
        outcome: false,
        label: None,
        writes: Vector::new(alloc),
        reads: Vector::new(alloc),
        enter: false,
        back: false,
    })
}

fn edges(alloc: Global, rows: &[Row], change: Change) -> Result<Vector<Edge>, Memory> {
    let mut list = Vector::new(alloc);
    for (i, row) in rows.iter().enumerate() {
        let row = match change {
            Change::Row(at, other) if at == i => other,
            _ => *row,
        };
        list.push(edge(alloc, row)?)?;
    }
    if let Change::MoreRow(row) = change {
        list.push(edge(alloc, row)?)?;
    }
    Ok(list)
}

fn nodes(alloc: Global, table: &[Node], change: Change) -> Result<Vector<Node>, Memory> {
    let mut list = Vector::new(alloc);
    for (i, node) in table.iter().enumerate() {
        let node = match change {
            Change::Node(at, other) if at == i => other,
            _ => *node,
        };
        list.push(node)?;
    }
    if let Change::MoreNode(node) = change {
        list.push(node)?;
    }
    Ok(list)
}

fn function(alloc: Global, shape: Shape) -> Result<Function, Memory> {
    let name = Name::new(alloc, shape.name.as_bytes())?;
    let parameters = Vector::from_vec(Vec::from_slice(alloc, shape.parameters)?);
    let arrays = Vector::from_vec(Vec::from_slice(alloc, shape.arrays)?);
    Ok(Function {
        name,
        entry: shape.ends.0,
        exit: shape.ends.1,
        parameters,
        arrays,
        result: shape.result,
        cells: shape.cells,
    })
}

fn functions(alloc: Global, shapes: &[Shape], change: Change) -> Result<Vector<Function>, Memory> {
    let mut list = Vector::new(alloc);
    for (i, shape) in shapes.iter().enumerate() {
        let shape = match change {
            Change::Shape(at, other) if at == i => other,
            _ => *shape,
        };
        list.push(function(alloc, shape)?)?;
    }
    Ok(list)
}

fn variable(alloc: Global, seen: Seen) -> Result<Variable, Memory> {
    Ok(Variable {
        name: Name::new(alloc, b"x")?,
        kind: Kind::INT,
        length: seen.length,
        place: seen.place,
    })
}

fn scope(alloc: Global, number: u32, table: &[Seen], change: Change) -> Result<Scope, Memory> {
    let mut variables = Variables::new();
    for (i, seen) in table.iter().enumerate().rev() {
        let seen = match change {
            Change::Seen(at, other) if at == i => other,
            _ => *seen,
        };
        if seen.scope == number {
            variables = Variables::with(alloc, variable(alloc, seen)?, variables)?;
        }
    }
    Ok(Scope { variables })
}

fn scopes(
    alloc: Global,
    count: u32,
    table: &[Seen],
    change: Change,
) -> Result<Vector<Scope>, Memory> {
    let mut list = Vector::new(alloc);
    for number in 0..count {
        list.push(scope(alloc, number, table, change)?)?;
    }
    if let Change::MoreScope(seen) = change {
        list.push(scope(alloc, seen.scope, &[seen], Change::Nothing)?)?;
    }
    Ok(list)
}

fn globals(alloc: Global, change: Change) -> Result<Vector<(Kind, u64)>, Memory> {
    let list = match change {
        Change::Globals(count, kind) => vec![in alloc; (kind, 0); count]?,
        _ => Vec::new(alloc),
    };
    Ok(Vector::from_vec(list))
}

fn inputs(alloc: Global, change: Change) -> Result<Vector<InputFunction>, Memory> {
    let mut list = Vector::new(alloc);
    if let Change::Input(result) = change {
        let name = Name::new(alloc, b"in")?;
        list.push(InputFunction { name, result })?;
    }
    Ok(list)
}

fn files(alloc: Global) -> Result<Vector<Name>, Memory> {
    let mut list = Vector::new(alloc);
    list.push(Name::new(alloc, b"a.c")?)?;
    Ok(list)
}

// Without memory a list is empty, and the parts are not what the test wants.
fn or_empty<T: Drop>(alloc: Global, list: Result<Vector<T>, Memory>) -> Vector<T> {
    match list {
        Ok(list) => list,
        Err(_) => Vector::new(alloc),
    }
}

impl Draft {
    /// The parts of the graph with a change of its edges and one of its other parts.
    pub fn parts(&self, alloc: Global, row: Change, other: Change) -> GraphParts {
        GraphParts {
            files: or_empty(alloc, files(alloc)),
            nodes: or_empty(alloc, nodes(alloc, self.nodes, other)),
            edges: or_empty(alloc, edges(alloc, self.rows, row)),
            functions: or_empty(alloc, functions(alloc, self.shapes, other)),
            declared: Vector::new(alloc),
            inputs: or_empty(alloc, inputs(alloc, other)),
            scopes: or_empty(alloc, scopes(alloc, self.scopes, self.seen, other)),
            globals: or_empty(alloc, globals(alloc, other)),
        }
    }
}

fn long_nodes(alloc: Global, count: u32) -> Result<Vector<Node>, Memory> {
    let mut list = Vector::new(alloc);
    for _ in 0..count {
        list.push(place())?;
    }
    list.push(place())?;
    Ok(list)
}

fn long_edges(alloc: Global, count: u32) -> Result<Vector<Edge>, Memory> {
    let mut list = Vector::new(alloc);
    for node in 0..count {
        let (source, target) = match node {
            0 => (0, 2),
            1 => (count, count),
            _ => (node, node.saturating_add(1)),
        };
        let step = Step::Set(1, Word::Just(Part::Local(1)));
        list.push(edge(alloc, row_between(source, target, step))?)?;
    }
    Ok(list)
}

static LONG: [Shape; 1] = [Shape {
    name: "f",
    ends: (0, 1),
    parameters: &[],
    arrays: &[],
    result: None,
    cells: 2,
}];

/// The parts of a row of assignments between so many nodes, and an edge that leads from the last back to itself.
pub fn long_parts(alloc: Global, count: u32) -> GraphParts {
    GraphParts {
        files: or_empty(alloc, files(alloc)),
        nodes: or_empty(alloc, long_nodes(alloc, count)),
        edges: or_empty(alloc, long_edges(alloc, count)),
        functions: or_empty(alloc, functions(alloc, &LONG, Change::Nothing)),
        declared: Vector::new(alloc),
        inputs: Vector::new(alloc),
        scopes: or_empty(alloc, scopes(alloc, 1, &[], Change::Nothing)),
        globals: Vector::new(alloc),
    }
}

fn row_between(source: u32, target: u32, step: Step) -> Row {
    Row {
        file: 0,
        ends: (source, target),
        function: 0,
        step,
    }
}

fn place() -> Node {
    Node {
        function: 0,
        file: 0,
        line: 1,
        scope: 0,
        depth: 0,
    }
}
