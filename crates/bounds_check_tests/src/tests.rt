//! Whether bounds suffice for small functions, worked by hand.
ghost use Rattle.std.specs.Prelude.{IfOk};
ghost use Rattle.cfa.specs.Contexts.{IsOnce};

use bounds_check::laws::{derivations_suffice, unhit_is_unreachable};
use bounds_check::{Bounded, Suffice, bounds_suffice};
use c_front::automaton_of_texts;
use c_meaning::Input;
use cfa::Graph;
use fq_core::{Fault, Place};
use std::alloc::{AllocError, Global};
use std::test::Fail;
use suite_problem::Entry;
use test_programs::texts_of;
use unwinder_reach::reached::Bounds;

// A program, the turns, the frames and the answers, the budget, and whether they suffice for `f`.
type Row = (&'static str, u32, u32, u32, u64, &'static str);

const BRANCH: &str = "int f(int x) {\n  if (x > 10) {\n    return 1;\n  }\n  return 0;\n}\n";

const LOOP: &str =
    "int f(int n) {\n  int i = 0;\n  while (i < n) {\n    i = i + 1;\n  }\n  if (i == 3) {\n    return 1;\n  }\n  return 0;\n}\n";

const THREE: &str =
    "int f(int x) { int s = 0; for (int i = 0; i < 3; i++) { s = s + x; } return s; }";

// As many turns as the argument says, and that is at most four.
const SMALL: &str =
    "int f(int n) { assume(n < 5); int i = 0; while (i < n) { i = i + 1; } return i; }";

// Five frames: f, and g of 3, 2, 1 and 0.
const CALLS: &str =
    "int g(int n) { if (n == 0) { return 0; } return g(n - 1); } int f(int x) { return g(3) + x; }";

// A third answer is read where the first is 5.
const ANSWERS: &str =
    "int in(void); int f(void) { int a = in(); int b = in(); if (a == 5) { b = in(); } return b; }";

const FOREVER: &str = "int f(int x) { for (;;) { if (x == 7) { continue; } return x; } }";

const NESTED: &str =
    "int f(int n) { int s = 0; int i; int j; for (i = 0; i < n; i++) { for (j = 0; j < n; j++) { s = s + 1; } } return s; }";

static ROWS: [Row; 18] = [
    (BRANCH, 4, 8, 16, 1_000_000, "suffice"),
    (BRANCH, 0, 1, 0, 1_000_000, "suffice"),
    (LOOP, 3, 8, 16, 1_000_000, "left"),
    (LOOP, 3, 8, 16, 1, "open"),
    (THREE, 3, 8, 16, 1_000_000, "suffice"),
    (THREE, 2, 8, 16, 1_000_000, "left"),
    (SMALL, 4, 8, 16, 1_000_000, "suffice"),
    (SMALL, 3, 8, 16, 1_000_000, "left"),
    (CALLS, 0, 5, 0, 1_000_000, "suffice"),
    (CALLS, 0, 4, 0, 1_000_000, "left"),
    (ANSWERS, 0, 1, 3, 1_000_000, "suffice"),
    (ANSWERS, 0, 1, 2, 1_000_000, "left"),
    // Whatever the answers are, a second one is read.
    (ANSWERS, 0, 1, 1, 1_000_000, "left"),
    // A run without an end leaves each number of turns. One that traps, and one that is blocked, stays.
    (FOREVER, 40, 1, 0, 1_000_000, "left"),
    (
        "int f(int x) { return 1 / x; }",
        0,
        1,
        0,
        1_000_000,
        "suffice",
    ),
    (
        "int f(int x) { assume(x != 7); for (;;) { if (x == 7) { continue; } return x; } }",
        0,
        1,
        0,
        1_000_000,
        "suffice",
    ),
    (NESTED, 1, 1, 0, 1_000_000, "left"),
    (NESTED, 1000, 1, 0, 1_000_000, "refused 80 limit 50000"),
];

fn automaton_of(alloc: Global, source: &str) -> Result<Graph, Fail>
    ensures { IfOk result (λ graph. IsOnce graph) }
{
    let Ok(texts) = texts_of(alloc, &[("a.c", source)]) else {
        return Err(Fail::from("no memory"));
    };
    if !c_lex::are_small(&texts) || texts.len() != 1 {
        return Err(Fail::from("no unit"));
    }
    match automaton_of_texts(alloc, &texts) {
        Ok(graph) => Ok(graph),
        Err(_) => Err(Fail::from("no automaton")),
    }
}

// Whether bounds suffice for an entry, where they are in range.
fn suffice_at(
    alloc: Global,
    entry: Entry,
    bounds: Bounds,
    budget: u64,
) -> Result<Result<Suffice, Fault>, Fail> {
    if bounds.frames == 0 || bounds.answers > 256 {
        return Err(Fail::from("no bounds"));
    }
    let bounded = Bounded { entry, bounds };
    Ok(bounds_suffice(alloc, &bounded, budget))
}

// Whether bounds suffice for the function f of an automaton.
fn suffice_over(
    alloc: Global,
    graph: &Graph,
    bounds: Bounds,
    budget: u64,
) -> Result<Result<Suffice, Fault>, Fail>
    requires { IsOnce graph.now }
{
    let Some(number) = graph.function_named(b"f") else {
        return Err(Fail::from("no function"));
    };
    let function = &graph.functions()[number as usize];
    if function.arrays.len() > 0 {
        return Err(Fail::from("no entry"));
    }
    let entry = Entry {
        graph,
        number,
        function,
    };
    suffice_at(alloc, entry, bounds, budget)
}

fn suffice_in(
    alloc: Global,
    source: &str,
    bounds: Bounds,
    budget: u64,
) -> Result<Result<Suffice, Fault>, Fail> {
    let graph = automaton_of(alloc, source)?;
    suffice_over(alloc, &graph, bounds, budget)
}

fn text_of(alloc: Global, suffice: &Result<Suffice, Fault>) -> Result<String, AllocError> {
    match suffice {
        Ok(Suffice::Yes { .. }) => format!(in alloc; "suffice"),
        Ok(Suffice::Left(_)) => format!(in alloc; "left"),
        Ok(Suffice::Open { .. }) => format!(in alloc; "open"),
        Err(Fault::Memory) => format!(in alloc; "no memory"),
        Err(Fault::Refused(refusal)) => {
            let code = refusal.code;
            match &refusal.place {
                Place::Limit { number } => format!(in alloc; "refused {code} limit {number}"),
                _ => format!(in alloc; "refused {code}"),
            }
        }
    }
}

#[test]
fn rows(rt: HostRuntime) -> Result<(), Fail> {
    for (source, turns, frames, answers, budget, expected) in &ROWS {
        let bounds = Bounds {
            turns: *turns,
            frames: *frames,
            answers: *answers,
        };
        let suffice = suffice_in(rt.alloc(), source, bounds, *budget)?;
        let text = text_of(rt.alloc(), &suffice)?;
        assert_eq!(rt; text.as_str(), *expected, "{source}");
    }
    unhit_is_unreachable();
    derivations_suffice();
    Ok(())
}

// The statements `x = x / y` of 64 bits weigh 65,536 each, and 64 of them are just at the limit.
fn quotients(alloc: Global, count: u32) -> Result<String, Fail> {
    let mut source = String::new(alloc);
    source.push_str("long f(long x, long y) {")?;
    for _ in 0..count {
        source.push_str(" x = x / y;")?;
    }
    source.push_str(" return x; }")?;
    Ok(source)
}

#[test]
fn too_many_sizes(rt: HostRuntime) -> Result<(), Fail> {
    let bounds = Bounds {
        turns: 0,
        frames: 1,
        answers: 0,
    };
    let source = quotients(rt.alloc(), 65)?;
    let suffice = suffice_in(rt.alloc(), source.as_str(), bounds, 1_000_000)?;
    let text = text_of(rt.alloc(), &suffice)?;
    assert_eq!(rt; text.as_str(), "refused 81 limit 4194304");
    Ok(())
}

fn left_in(alloc: Global, source: &str, turns: u32, answers: u32) -> Result<Input, Fail> {
    let bounds = Bounds {
        turns,
        frames: 1,
        answers,
    };
    match suffice_in(alloc, source, bounds, 1_000_000)? {
        Ok(Suffice::Left(input)) => Ok(input),
        _ => Err(Fail::from("not left")),
    }
}

// The lowest 32 bits of a word, as a value of int.
fn int_of(word: u64) -> i64 {
    let low = (word & 0xffff_ffff) as i64;
    if low < 0x8000_0000 {
        low
    } else {
        low - 0x1_0000_0000
    }
}

// An argument of at least four takes a fourth turn, one of less than five being allowed; seven alone turns for ever.
#[test]
fn arguments_that_leave(rt: HostRuntime) -> Result<(), Fail> {
    for (source, turns, least, most) in [
        (LOOP, 3, 4, 0x7fff_ffff),
        (SMALL, 3, 4, 4),
        (FOREVER, 40, 7, 7),
    ] {
        let input = left_in(rt.alloc(), source, turns, 0)?;
        assert_eq!(rt; input.words.len(), 1);
        assert!(rt; input.answers.is_empty());
        let value = int_of(input.words[0]);
        assert!(rt; value >= least && value <= most, "{value} in {source}");
    }
    Ok(())
}

// A third answer is asked for where the first is 5, whatever the second is; a second one always is.
#[test]
fn answers_that_leave(rt: HostRuntime) -> Result<(), Fail> {
    let input = left_in(rt.alloc(), ANSWERS, 0, 2)?;
    assert!(rt; input.words.is_empty());
    assert!(rt; input.answers.len() == 1 || input.answers.len() == 2);
    assert_eq!(rt; int_of(input.answers[0]), 5);
    let input = left_in(rt.alloc(), ANSWERS, 0, 1)?;
    assert!(rt; input.answers.len() < 2);
    Ok(())
}
