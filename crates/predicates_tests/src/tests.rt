// Queries whose predicates are resolved over the automata of sources.
use cfa::{CellPlace, Expr, Graph, Predicates};
use fq_core::{Fault, Place, Refusal};
use fql_read::read_query;
use predicates::resolve;
use std::alloc::Global;
use std::fmt::Write;
use std::test::Fail;
use test_programs::graph_of;

// Scope 0 has g's v, scope 1 f's x, and scope 2, behind the declaration, x and y; y is cell 2 of f's frame, behind the
// result and x.
const CALLS: &str = "int g(int v) { return v; }
int f(int x) {
  int y = 0;
  if (x > 3) {
    y = g(x);
  }
  return y;
}";

// Each scope has a and b, and scope 1 has n.
const ARRAYS: &str = "int a[4];
int b;
int g(void) { return 0; }
int f(int n) { return n; }";

fn resolved(alloc: Global, graph: &Graph, query: &str) -> Result<Predicates, Fault> {
    let query = read_query(alloc, query.as_bytes())?;
    resolve(alloc, &query, graph)
}

#[cycle(shown)]
fn show_place(text: &mut String, place: &CellPlace) -> Result<(), Fail> {
    match place {
        CellPlace::Global(cell) => write!(text, "g{cell}")?,
        CellPlace::Local(cell) => write!(text, "l{cell}")?,
        CellPlace::Element {
            array,
            index,
            length,
        } => {
            write!(text, "{array:?}x{length}[")?;
            show_expr(text, index)?;
            text.push_str("]")?;
        }
    }
    Ok(())
}

#[cycle(shown)]
fn show_expr(text: &mut String, expr: &Expr) -> Result<(), Fail> {
    match expr {
        Expr::Constant(value, _) => write!(text, "{value}")?,
        Expr::Load(place, _) => show_place(text, place)?,
        Expr::Convert(operand, _) => {
            text.push_str("to ")?;
            show_expr(text, operand)?;
        }
        Expr::Unary(op, operand, _) => {
            write!(text, "{op:?} ")?;
            show_expr(text, operand)?;
        }
        Expr::Binary(op, left, right, _) => {
            write!(text, "{op:?} (")?;
            show_expr(text, left)?;
            text.push_str(") (")?;
            show_expr(text, right)?;
            text.push_str(")")?;
        }
    }
    Ok(())
}

// By predicate, its text and its expression in each scope, `-` where it has none.
fn show_predicates(text: &mut String, predicates: &Predicates) -> Result<(), Fail> {
    for (name, row) in predicates.texts.iter().zip(predicates.meanings.as_slice()) {
        write!(text, "{} bytes:", name.bytes().len())?;
        for meaning in row {
            text.push_str(" ")?;
            match meaning {
                None => text.push_str("-")?,
                Some(shared) => show_expr(text, shared.expr())?,
            }
            text.push_str(",")?;
        }
        text.push_str(";")?;
    }
    Ok(())
}

fn show_refusal(text: &mut String, refusal: &Refusal) -> Result<(), Fail> {
    write!(text, "{} ", refusal.code)?;
    match &refusal.place {
        Place::QueryWhole => text.push_str("query")?,
        Place::Limit { number } => write!(text, "limit {number}")?,
        _ => text.push_str("elsewhere")?,
    }
    Ok(())
}

fn answer(alloc: Global, source: &str, query: &str) -> Result<String, Fail> {
    let mut text = String::new(alloc);
    let graph = match graph_of(alloc, b"p.c", source) {
        Ok(graph) => graph,
        Err(_fault) => {
            text.push_str("no graph")?;
            return Ok(text);
        }
    };
    match resolved(alloc, &graph, query) {
        Ok(predicates) => show_predicates(&mut text, &predicates)?,
        Err(Fault::Refused(refusal)) => show_refusal(&mut text, &refusal)?,
        Err(Fault::Memory) => text.push_str("memory")?,
    }
    Ok(text)
}

// `cover {FIRST==0}+{FIRST==1}+..`, with so many predicates.
fn many(alloc: Global, first: &str, count: u32) -> Result<String, Fail> {
    let mut query = String::new(alloc);
    query.push_str("cover ID")?;
    for number in 0..count {
        write!(query, "+{{{first}=={number}}}")?;
    }
    Ok(query)
}

#[test]
fn answers(rt: HostRuntime) -> Result<(), Fail> {
    let rows = [
        // Nodes 2 and 3, f's entry and exit, have scope 1; node 4, behind the declaration, has scope 2.
        (CALLS, "cover {y == 9}", "6 bytes: -, -, Equal (l2) (9),;"),
        (
            CALLS,
            "cover {x}+{v}+{x}",
            "1 bytes: -, l1, l1,;1 bytes: l1, -, -,;",
        ),
        (CALLS, "cover {7}", "1 bytes: 7, 7, 7,;"),
        (CALLS, "cover {/* no\n*/ x // y\n}", "16 bytes: -, l1, l1,;"),
        (
            CALLS,
            "cover {\n#define N x +\nN 1}",
            "18 bytes: -, Add (l1) (1), Add (l1) (1),;",
        ),
        (CALLS, "cover {q}", "66 query"),
        (CALLS, "cover {x +}", "65 query"),
        (CALLS, "cover {}", "65 query"),
        (CALLS, "cover {g(x)}", "65 query"),
        (CALLS, "cover {x && y}", "65 query"),
        (CALLS, "cover {x || y}", "65 query"),
        (CALLS, "cover {x ? y : 1}", "65 query"),
        (CALLS, "cover {x = 1}", "65 query"),
        (CALLS, "cover {@}", "65 query"),
        (CALLS, "cover {/* x}", "65 query"),
        (CALLS, "cover {\n#undef x\n}", "65 query"),
        (CALLS, "cover {18446744073709551616}", "65 query"),
        (CALLS, "cover {1.5}", "65 query"),
        (CALLS, "cover {f}", "66 query"),
        (CALLS, "cover {v + x}", "66 query"),
        // Of several causes the first in order is told, wherever its predicate stands.
        (CALLS, "cover {q}.{x +}", "65 query"),
        (CALLS, "cover {x}.{q}", "66 query"),
        (ARRAYS, "cover {a}", "66 query"),
        (ARRAYS, "cover {b}", "1 bytes: g4, g4,;"),
        (ARRAYS, "cover {a[n]}", "4 bytes: -, Global(0)x4[l1],;"),
        (ARRAYS, "cover {b[0]}", "66 query"),
    ];
    for (source, query, expected) in rows {
        let text = answer(rt.alloc(), source, query)?;
        assert_eq!(rt; text.as_str(), expected, "{query}");
    }
    Ok(())
}

#[test]
fn limits(rt: HostRuntime) -> Result<(), Fail> {
    let alloc = rt.alloc();
    let text = answer(alloc, CALLS, many(alloc, "x", 65)?.as_str())?;
    assert_eq!(rt; text.as_str(), "67 limit 64");
    // 65 predicates of which the first isn't read
    let text = answer(alloc, CALLS, many(alloc, "+", 65)?.as_str())?;
    assert_eq!(rt; text.as_str(), "67 limit 64");
    let text = answer(alloc, CALLS, many(alloc, "+", 64)?.as_str())?;
    assert_eq!(rt; text.as_str(), "65 query");
    let text = answer(alloc, CALLS, many(alloc, "q", 64)?.as_str())?;
    assert_eq!(rt; text.as_str(), "66 query");
    // 128 times x are 255 tokens in a row, and 129 times are 257.
    for (count, expected) in [(128, false), (129, true)] {
        let mut query = String::new(alloc);
        query.push_str("cover {x")?;
        for _ in 1..count {
            query.push_str("+x")?;
        }
        query.push_str("}")?;
        let text = answer(alloc, CALLS, query.as_str())?;
        assert_eq!(rt; text.as_str() == "65 query", expected);
    }
    Ok(())
}

// 64 predicates over a function of 1,000 declarations, each of which makes two nodes and a scope.
#[test]
fn a_large_automaton(rt: HostRuntime) -> Result<(), Fail> {
    let alloc = rt.alloc();
    let mut source = String::new(alloc);
    source.push_str("int f(int x) {\n")?;
    for number in 0..1000 {
        write!(source, "  int y{number} = x + {number};\n")?;
    }
    source.push_str("  return x;\n}\n")?;
    let Ok(graph) = graph_of(alloc, b"p.c", source.as_str()) else {
        return Err(Fail::from("no graph"));
    };
    assert_eq!(rt; graph.scopes().len(), 1001);
    let query = many(alloc, "y500+x", 64)?;
    let Ok(predicates) = resolved(alloc, &graph, query.as_str()) else {
        return Err(Fail::from("not resolved"));
    };
    assert_eq!(rt; predicates.texts.len(), 64);
    assert_eq!(rt; predicates.meanings.len(), 64);
    // Behind the first declaration stands scope 1, so scopes 501 to 1000 have y500.
    for row in &predicates.meanings {
        let found = row
            .as_slice()
            .iter()
            .filter(|meaning| meaning.is_some())
            .count();
        assert_eq!(rt; (row.len(), found), (1001, 500));
    }
    Ok(())
}
