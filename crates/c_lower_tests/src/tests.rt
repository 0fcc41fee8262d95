// Sources with the nodes and edges that they are lowered to.
mod carried;
mod expressions;
mod statements;

use c_lex::{SourceText, are_small, tokens};
use c_lower::make_parts;
use c_parse::parse;
use c_typed_trees::Typed;
use c_types::check;
use carried::CARRIED;
use cfa::{Edge, GraphParts, Node, Operation, Scope};
use containers::Vector;
use expressions::EXPRESSIONS;
use fq_core::{Fault, Name};
use statements::STATEMENTS;
use std::alloc::Global;
use std::fmt::Write;
use std::test::Fail;

type Case = (&'static str, &'static str);

fn typed_of(alloc: Global, source: &str) -> Result<Typed, Fault> {
    let name = Name::new(alloc, b"t.c")?;
    let bytes = Vector::from_vec(Vec::from_slice(alloc, source.as_bytes()).map_err(
        |_| Fault::Memory,
    )?);
    let texts = [SourceText { name, bytes }];
    if !are_small(&texts) {
        return Err(Fault::Memory);
    }
    let tokens = tokens(alloc, &texts)?;
    check(alloc, parse(alloc, &tokens)?)
}

// A node: its function, its line, its scope and its depth.
fn show_node(text: &mut String, node: &Node) -> Result<(), Fail> {
    write!(
        text,
        "{}:{}s{}d{} ",
        node.function, node.line, node.scope, node.depth
    )?;
    Ok(())
}

fn operation_word(operation: &Operation) -> &'static str {
    match operation {
        Operation::Skip => "skip",
        Operation::Assign { .. } => "assign",
        Operation::Clear { .. } => "clear",
        Operation::Guard { truth, .. } => { if *truth { "true" } else { "false" } }
        Operation::Call { .. } => "call",
        Operation::Return { .. } => "return",
        Operation::Answer { .. } => "answer",
        Operation::Assert(_) => "assert",
        Operation::Assume(_) => "assume",
    }
}

// An edge: its ends, its operation, its line, and its flags: ? within a decision, ! decides it, + enters a loop, - leads
// back to its head.
fn show_edge(text: &mut String, edge: &Edge) -> Result<(), Fail> {
    let word = operation_word(&edge.operation);
    write!(
        text,
        "{}>{} {word}@{}",
        edge.source, edge.target, edge.span.line
    )?;
    if edge.decision {
        text.push_str("?")?;
    }
    if edge.outcome {
        text.push_str("!")?;
    }
    if edge.enter {
        text.push_str("+")?;
    }
    if edge.back {
        text.push_str("-")?;
    }
    text.push_str(", ")?;
    Ok(())
}

fn show(text: &mut String, parts: &GraphParts) -> Result<(), Fail> {
    for node in parts.nodes.iter() {
        show_node(text, node)?;
    }
    text.push_str("| ")?;
    for edge in parts.edges.iter() {
        show_edge(text, edge)?;
    }
    Ok(())
}

fn parts_of(alloc: Global, source: &str) -> Result<GraphParts, Fail> {
    let Ok(typed) = typed_of(alloc, source) else {
        return Err(Fail::from("refused"));
    };
    let Ok(parts) = make_parts(alloc, &typed, Vector::new(alloc)) else {
        return Err(Fail::from("not lowered"));
    };
    Ok(parts)
}

fn graph_text(alloc: Global, source: &str) -> Result<String, Fail> {
    let mut text = String::new(alloc);
    show(&mut text, &parts_of(alloc, source)?)?;
    Ok(text)
}

fn as_text(name: &Name) -> &str {
    std::str::from_utf8(name.bytes()).unwrap_or("?")
}

fn show_names(text: &mut String, names: &[Name]) -> Result<(), Fail> {
    for (i, name) in names.iter().enumerate() {
        if i > 0 {
            text.push_str(",")?;
        }
        text.push_str(as_text(name))?;
    }
    Ok(())
}

// What an edge carries: its function, the kind of its statement, the names that it writes and those that it reads, and
// its label.
fn show_carried(text: &mut String, edge: &Edge) -> Result<(), Fail> {
    write!(text, "{}{:?} ", edge.function, edge.statement)?;
    show_names(text, &edge.writes)?;
    text.push_str("<")?;
    show_names(text, &edge.reads)?;
    if let Some(label) = &edge.label {
        write!(text, " :{}", as_text(label))?;
    }
    text.push_str("; ")?;
    Ok(())
}

fn show_scope(text: &mut String, scope: &Scope) -> Result<(), Fail> {
    let mut begun = false;
    for variable in scope.variables.iter() {
        if begun {
            text.push_str(" ")?;
        }
        text.push_str(as_text(&variable.name))?;
        begun = true;
    }
    text.push_str("; ")?;
    Ok(())
}

// What the edges of a source carry, and the names in its scopes.
fn carried_text(alloc: Global, source: &str) -> Result<String, Fail> {
    let parts = parts_of(alloc, source)?;
    let mut text = String::new(alloc);
    for edge in parts.edges.iter() {
        show_carried(&mut text, edge)?;
    }
    text.push_str("| ")?;
    for scope in parts.scopes.iter() {
        show_scope(&mut text, scope)?;
    }
    Ok(text)
}

const RETURNS: &str = "int f(int x) {
  if (x > 10) {
    return 1;
  }
  return 0;
}";

const CALLS: &str = "int g(int v) { return v; }
int f(int x) {
  int y = 0;
  if (x > 3) {
    y = g(x);
  }
  return y;
}";

#[test]
fn units(rt: HostRuntime) -> Result<(), Fail> {
    let rows = [
        (
            RETURNS,
            "0:1s0d0 0:6s0d0 0:5s0d0 0:2s0d0 | 0>3 true@2?!, 0>2 false@2?!, 3>1 assign@3, 2>1 assign@5, ",
        ),
        (
            CALLS,
            "0:1s0d0 0:1s0d0 1:2s1d0 1:8s1d0 1:4s2d0 1:7s2d0 1:4s2d0 1:5s2d0 | 0>1 assign@1, 2>4 assign@3, 4>6 true@4?!, 4>5 false@4?!, 6>0 call@5, 1>7 return@5, 7>5 assign@5, 5>3 assign@7, ",
        ),
        ("void f(void) {}", "0:1s0d0 0:1s0d0 | 0>1 skip@1, "),
        (
            "void f(int n) { while (n > 0) n = n - 1; }",
            "0:1s0d0 0:1s0d0 0:1s0d1 0:1s0d1 0:1s0d1 | 0>2 skip@1+, 2>3 true@1?!, 2>1 false@1?!, 3>4 assign@1, 4>2 skip@1-, ",
        ),
        (
            "void f(int n) { do n = n - 1; while (n > 0); }",
            "0:1s0d0 0:1s0d0 0:1s0d1 0:1s0d1 0:1s0d1 | 0>2 skip@1+, 2>3 assign@1, 3>4 true@1?!, 3>1 false@1?!, 4>2 skip@1-, ",
        ),
        (
            "void f(int n) { for (int i = 0; i < n; i = i + 1) continue; }",
            "0:1s0d0 0:1s0d0 0:1s1d0 0:1s1d1 0:1s1d1 0:1s1d1 0:1s1d1 | 0>2 assign@1, 2>3 skip@1+, 3>4 true@1?!, 3>1 false@1?!, 4>5 skip@1, 5>6 assign@1, 6>3 skip@1-, ",
        ),
        (
            "void f(int n) { switch (n) { case 1: n = 2; default: n = 3; } }",
            "0:1s0d0 0:1s0d0 0:1s0d0 0:1s0d0 0:1s0d0 | 0>4 assign@1, 4>2 true@1?!, 4>3 false@1?!, 2>3 assign@1, 3>1 assign@1, ",
        ),
        (
            "void f(int a, int b) { if (a && b) a = 1; }",
            "0:1s0d0 0:1s0d0 0:1s0d0 0:1s0d0 | 0>3 true@1?, 0>1 false@1?!, 3>2 true@1?!, 3>1 false@1?!, 2>1 assign@1, ",
        ),
        (
            "void f(int a) { a = a ? 1 : 2; }",
            "0:1s0d0 0:1s0d0 0:1s0d0 0:1s0d0 0:1s0d0 | 0>2 true@1?!, 0>3 false@1?!, 2>4 assign@1, 3>4 assign@1, 4>1 assign@1, ",
        ),
        (
            "int in(void); void f(int a) { a = in(); }",
            "0:1s0d0 0:1s0d0 0:1s0d0 | 0>2 answer@1, 2>1 assign@1, ",
        ),
        (
            "void f(void) { int t[3] = {7, 8}; }",
            "0:1s0d0 0:1s0d0 0:1s0d0 0:1s0d0 | 0>2 clear@1, 2>3 assign@1, 3>1 assign@1, ",
        ),
    ];
    for (source, expected) in rows {
        let text = graph_text(rt.alloc(), source)?;
        assert_eq!(rt; text.as_str(), expected, "in {source}");
    }
    Ok(())
}

#[test]
fn rows_of_the_table(rt: HostRuntime) -> Result<(), Fail> {
    for cases in [STATEMENTS.as_slice(), EXPRESSIONS.as_slice()] {
        for (source, expected) in cases {
            let text = graph_text(rt.alloc(), source)?;
            assert_eq!(rt; text.as_str(), *expected, "in {source}");
        }
    }
    Ok(())
}

#[test]
fn what_is_carried(rt: HostRuntime) -> Result<(), Fail> {
    for (source, expected) in CARRIED.as_slice() {
        let text = carried_text(rt.alloc(), source)?;
        assert_eq!(rt; text.as_str(), *expected, "in {source}");
    }
    Ok(())
}
