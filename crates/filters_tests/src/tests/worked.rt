// The automaton of
//
//     int g(int v) { return v; }
//     int f(int x) {
//       int y = 0;
//       if (x) {
//         L: y = g(x);
//       }
//       return y;
//     }
use c_values::Kind;
use cfa::*;
use containers::Vector;
use fq_core::{Memory, Name, Span, StatementKind};
use std::alloc::Global;

fn name(alloc: Global, text: &str) -> Result<Name, Memory> {
    Name::new(alloc, text.as_bytes())
}

fn names(alloc: Global, text: &str) -> Result<Vector<Name>, Memory> {
    let mut names = Vector::new(alloc);
    if !text.is_empty() {
        names.push(name(alloc, text)?)?;
    }
    Ok(names)
}

fn load(cell: u32) -> Expr {
    Expr::Load(CellPlace::Local(cell), Kind::INT)
}

fn set(cell: u32, value: Expr) -> Operation {
    Operation::Assign {
        place: CellPlace::Local(cell),
        value,
    }
}

// An edge of a function, with the one variable that it writes and the one that it reads.
fn edge(
    alloc: Global,
    (source, target, function): (u32, u32, u32),
    operation: Operation,
    (line, statement): (u32, StatementKind),
    (writes, reads): (&str, &str),
) -> Result<Edge, Memory> {
    let guard = statement == StatementKind::If;
    let label = if target == 6 && source == 7 {
        Some(name(alloc, "L")?)
    } else {
        None
    };
    Ok(Edge {
        source,
        target,
        function,
        operation,
        span: Span {
            file: 0,
            line,
            column: 1,
            start: 0,
            end: 1,
        },
        statement,
        decision: guard,
        outcome: guard,
        label,
        writes: names(alloc, writes)?,
        reads: names(alloc, reads)?,
        enter: false,
        back: false,
    })
}

fn edges(alloc: Global) -> Result<Vector<Edge>, Memory> {
    let mut edges = Vector::new(alloc);
    let zero = Expr::Constant(0, Kind::INT);
    let mut words = Vector::new(alloc);
    words.push(load(1))?;
    let call = Operation::Call {
        callee: 0,
        words,
        arrays: Vector::new(alloc),
    };
    let back = Operation::Return {
        call: 4,
        dest: Some(CellPlace::Local(3)),
    };
    let yes = Operation::Guard {
        test: load(1),
        truth: true,
    };
    let no = Operation::Guard {
        test: load(1),
        truth: false,
    };
    edges.push(edge(
        alloc,
        (0, 1, 0),
        set(0, load(1)),
        (1, StatementKind::Return),
        ("", "v"),
    )?)?;
    edges.push(edge(
        alloc,
        (2, 4, 1),
        set(2, zero),
        (3, StatementKind::Decl),
        ("y", ""),
    )?)?;
    edges.push(edge(alloc, (4, 5, 1), yes, (4, StatementKind::If), ("", "x"))?)?;
    edges.push(edge(alloc, (4, 6, 1), no, (4, StatementKind::If), ("", "x"))?)?;
    edges.push(edge(alloc, (5, 0, 1), call, (5, StatementKind::Call), ("", "x"))?)?;
    edges.push(edge(alloc, (1, 7, 1), back, (5, StatementKind::Call), ("", ""))?)?;
    edges.push(edge(
        alloc,
        (7, 6, 1),
        set(2, load(3)),
        (5, StatementKind::Assign),
        ("y", ""),
    )?)?;
    edges.push(edge(
        alloc,
        (6, 3, 1),
        set(0, load(2)),
        (7, StatementKind::Return),
        ("", "y"),
    )?)?;
    Ok(edges)
}

fn function(alloc: Global, text: &str, entry: u32, cells: u32) -> Result<Function, Memory> {
    let mut parameters = Vector::new(alloc);
    parameters.push(Kind::INT)?;
    Ok(Function {
        name: name(alloc, text)?,
        entry,
        exit: entry ^ 1,
        parameters,
        arrays: Vector::new(alloc),
        result: Some(Kind::INT),
        cells,
    })
}

fn variable(alloc: Global, text: &str, cell: u32) -> Result<Variable, Memory> {
    Ok(Variable {
        name: name(alloc, text)?,
        kind: Kind::INT,
        length: None,
        place: VariablePlace::Local(cell),
    })
}

// The parts of the automaton.
pub fn parts(alloc: Global) -> Result<GraphParts, Memory> {
    let mut nodes = Vector::new(alloc);
    for number in 0u32..8 {
        let function = if number < 2 { 0 } else { 1 };
        nodes.push(Node {
            function,
            file: 0,
            line: 1,
            scope: function,
            depth: 0,
        })?;
    }
    let mut functions = Vector::new(alloc);
    functions.push(function(alloc, "g", 0, 2)?)?;
    functions.push(function(alloc, "f", 2, 4)?)?;
    let mut declared = names(alloc, "g")?;
    declared.push(name(alloc, "f")?)?;
    let of_g = Variables::with(alloc, variable(alloc, "v", 1)?, Variables::new())?;
    let of_f = Variables::with(alloc, variable(alloc, "x", 1)?, Variables::new())?;
    let of_f = Variables::with(alloc, variable(alloc, "y", 2)?, of_f)?;
    let mut scopes = Vector::new(alloc);
    scopes.push(Scope { variables: of_g })?;
    scopes.push(Scope { variables: of_f })?;
    Ok(GraphParts {
        files: names(alloc, "p.c")?,
        nodes,
        edges: edges(alloc)?,
        functions,
        declared,
        inputs: Vector::new(alloc),
        scopes,
        globals: Vector::new(alloc),
    })
}
