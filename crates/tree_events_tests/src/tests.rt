// What edges tell, each by hand from the rows of docs/MEANING.md.
use c_values::Kind;
use cfa::{CellPlace, Edge, Expr, Operation, StatementKind};
use containers::Vector;
use fq_core::{Memory, Name, Span};
use std::alloc::Global;
use std::process::Abort;
use std::test::Fail;
use tree_events::edge_events::{Event, What, told};

fn load(cell: u32) -> Expr {
    Expr::Load(CellPlace::Local(cell), Kind::INT)
}

fn set(cell: u32) -> Operation {
    Operation::Assign {
        place: CellPlace::Local(cell),
        value: load(1),
    }
}

fn edge(
    alloc: Global,
    operation: Operation,
    statement: StatementKind,
    writes: &str,
) -> Result<Edge, Memory> {
    let mut names = Vector::new(alloc);
    if !writes.is_empty() {
        names.push(Name::new(alloc, writes.as_bytes())?)?;
    }
    Ok(Edge {
        source: 4,
        target: 5,
        function: 1,
        operation,
        span: Span {
            file: 0,
            line: 7,
            column: 3,
            start: 60,
            end: 61,
        },
        statement,
        decision: false,
        outcome: false,
        label: None,
        writes: names,
        reads: Vector::new(alloc),
        enter: false,
        back: false,
    })
}

fn word(what: &What) -> &'static str {
    match what {
        What::Outcome {
            truth: true,
            settles: true,
        } => "true settles",
        What::Outcome {
            truth: true,
            settles: false,
        } => "true",
        What::Outcome {
            truth: false,
            settles: true,
        } => "false settles",
        What::Outcome {
            truth: false,
            settles: false,
        } => "false",
        What::Did { name: None } => "did",
        What::Did { name: Some(_) } => "did a name",
        What::Entered { function: 3 } => "entered 3",
        What::Entered { .. } => "entered another",
        What::Left => "left",
        What::Answered { input: 2 } => "answered 2",
        What::Answered { .. } => "answered another",
        What::Valued => "valued",
        What::Enters => "enters",
        What::Again => "again",
        What::Always => "always",
        What::Straight => "straight",
    }
}

// An edge tells what these two words say, the second one empty where it tells one event.
fn tells(
    rt: &impl Abort,
    alloc: Global,
    edge: &Edge,
    first: &str,
    second: &str,
) -> Result<(), Memory> {
    let events = told(alloc, edge)?;
    let mut words = Vec::new(alloc);
    for event in events.as_slice() {
        words.push(word(&event.what))?;
        assert_eq!(rt; event.place, edge.span);
        assert!(rt; event.statement == edge.statement);
    }
    assert_eq!(rt; words.first().copied().unwrap_or(""), first);
    assert_eq!(rt; words.get(1).copied().unwrap_or(""), second);
    assert!(rt; words.len() <= 2);
    Ok(())
}

#[test]
fn operations(rt: HostRuntime) -> Result<(), Fail> {
    let alloc = rt.alloc();
    let mut guard = edge(
        alloc,
        Operation::Guard {
            test: load(1),
            truth: false,
        },
        StatementKind::If,
        "",
    )?;
    tells(&rt, alloc, &guard, "false", "")?;
    guard.outcome = true;
    tells(&rt, alloc, &guard, "false settles", "")?;
    let value = edge(alloc, set(2), StatementKind::Decl, "y")?;
    tells(&rt, alloc, &value, "did a name", "")?;
    let temporary = edge(alloc, set(9), StatementKind::Decl, "")?;
    tells(&rt, alloc, &temporary, "valued", "")?;
    let result = edge(alloc, set(0), StatementKind::Return, "")?;
    tells(&rt, alloc, &result, "did", "")?;
    let test = edge(alloc, Operation::Assert(load(1)), StatementKind::Assert, "")?;
    tells(&rt, alloc, &test, "did", "")?;
    Ok(())
}

#[test]
fn calls(rt: HostRuntime) -> Result<(), Fail> {
    let alloc = rt.alloc();
    let call = Operation::Call {
        callee: 3,
        words: Vector::new(alloc),
        arrays: Vector::new(alloc),
    };
    let call = edge(alloc, call, StatementKind::Call, "")?;
    tells(&rt, alloc, &call, "entered 3", "")?;
    let inner = Operation::Return {
        call: 8,
        dest: Some(CellPlace::Local(9)),
    };
    let inner = edge(alloc, inner, StatementKind::Call, "")?;
    tells(&rt, alloc, &inner, "left", "")?;
    let outer = Operation::Return {
        call: 8,
        dest: None,
    };
    let outer = edge(alloc, outer, StatementKind::Call, "")?;
    tells(&rt, alloc, &outer, "left", "did")?;
    let answer = Operation::Answer {
        input: 2,
        dest: None,
    };
    let answer = edge(alloc, answer, StatementKind::Call, "")?;
    tells(&rt, alloc, &answer, "answered 2", "did")?;
    Ok(())
}

#[test]
fn skips(rt: HostRuntime) -> Result<(), Fail> {
    let alloc = rt.alloc();
    let always = edge(alloc, Operation::Skip, StatementKind::For, "")?;
    tells(&rt, alloc, &always, "always", "")?;
    let straight = edge(alloc, Operation::Skip, StatementKind::Switch, "")?;
    tells(&rt, alloc, &straight, "straight", "")?;
    let jump = edge(alloc, Operation::Skip, StatementKind::Jump, "")?;
    tells(&rt, alloc, &jump, "did", "")?;
    let mut back = edge(alloc, Operation::Skip, StatementKind::For, "")?;
    back.back = true;
    tells(&rt, alloc, &back, "again", "")?;
    let mut enter = edge(alloc, Operation::Skip, StatementKind::While, "")?;
    enter.enter = true;
    tells(&rt, alloc, &enter, "enters", "")?;
    let mut label = edge(alloc, Operation::Skip, StatementKind::Label, "")?;
    label.label = Some(Name::new(alloc, b"L")?);
    tells(&rt, alloc, &label, "did a name", "")?;
    Ok(())
}
