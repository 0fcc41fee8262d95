// Sizes of small programs, each counted by hand. A frame has a cell for the result, each parameter, local and temporary.
use c_front::automaton_of_texts;
use cfa::{Graph, Predicates};
use fq_core::{Fault, Place, Refusal};
use fql_read::read_query;
use predicates::resolve;
use std::alloc::Global;
use std::test::Fail;
use test_programs::texts_of;
use unwinder_reach::reached::{Bounds, Reached, reached};
use unwinder_reach::unwinding_size::size_of_unwinding;

// Six nodes, at five of which lies x and at four y: f's entry, the node behind the declaration, the two arms, the node
// behind the `if`, to which two edges lead, and f's exit. A frame has three cells.
const BRANCH: &str = "int f(int x) { int y = 0; if (x) { y = 1; } else { y = 2; } return y; }";

// Two edges lead to the node behind the `if` in g, where g's frame has two cells, f's three and a temporary, and one is a
// global.
const CALL: &str = "int z; int g(int v) { if (v) { v = 1; } else { v = 2; } return v; }
int f(int x) { int y = g(x + 1); return y; }";

const LOOP: &str = "int f(int n) { int i = 0; while (i < n) { i = i + 1; } return i; }";

const IDLE: &str = "int f(int n) { while (n) { ; } return n; }";

fn predicates_of(alloc: Global, graph: &Graph, query: &str) -> Result<Predicates, Fault> {
    let query = read_query(alloc, query.as_bytes())?;
    resolve(alloc, &query, graph)
}

fn size_in(
    alloc: Global,
    source: &str,
    query: &str,
    turns: u32,
    frames: u32,
) -> Result<Result<u32, Refusal>, Fail> {
    let Ok(texts) = texts_of(alloc, &[("a.c", source)]) else {
        return Err(Fail::from("no memory"));
    };
    if !c_lex::are_small(&texts) || texts.len() != 1 {
        return Err(Fail::from("no unit"));
    }
    let Ok(graph) = automaton_of_texts(alloc, &texts) else {
        return Err(Fail::from("no automaton"));
    };
    let Ok(predicates) = predicates_of(alloc, &graph, query) else {
        return Err(Fail::from("no predicates"));
    };
    let Some(entry) = graph.function_named(b"f") else {
        return Err(Fail::from("no function"));
    };
    if entry as usize >= graph.functions().len() || frames == 0 {
        return Err(Fail::from("no entry"));
    }
    let bounds = Bounds {
        turns,
        frames,
        answers: 1,
    };
    let Ok(pairs) = reached(alloc, &graph, entry, bounds) else {
        return Err(Fail::from("no pairs"));
    };
    match size_of_unwinding(alloc, &graph, entry, &predicates, &pairs) {
        Ok(size) => Ok(Ok(size)),
        Err(Fault::Refused(refusal)) => Ok(Err(refusal)),
        Err(Fault::Memory) => Err(Fail::from("no memory")),
    }
}

fn size(alloc: Global, source: &str, query: &str, turns: u32, frames: u32) -> Result<u32, Fail> {
    match size_in(alloc, source, query, turns, frames)? {
        Ok(size) => Ok(size),
        Err(_) => Err(Fail::from("too large")),
    }
}

#[test]
fn branches_loops_and_calls(rt: HostRuntime) -> Result<(), Fail> {
    let rows = [
        ("int f(int x) { return x; }", "cover ID", 0, 1, 0),
        // one merge of three cells
        (BRANCH, "cover ID", 0, 1, 24),
        // a comparison of 32 bits weighs 256, and stands at all six pairs
        (BRANCH, "cover {x > 3}", 0, 1, 24 + 6 * 256),
        // at four of them
        (BRANCH, "cover {y > 3}", 0, 1, 24 + 4 * 256),
        (BRANCH, "cover {y > 3}+{x > 3}", 0, 1, 24 + 10 * 256),
        // the words of a call that the frames forbid
        (CALL, "cover ID", 0, 1, 256),
        // a merge of seven cells
        (CALL, "cover ID", 0, 2, 256 + 7 * 8),
        // The test of the two guards stands at each turn and once more, and so does the sum. Behind the loop the edges of
        // all its tests meet.
        (LOOP, "cover ID", 0, 1, 2 * 256),
        (LOOP, "cover ID", 1, 1, 4 * 256 + 24),
        (LOOP, "cover ID", 5, 1, 12 * 256 + 5 * 24),
    ];
    for (source, query, turns, frames, expected) in rows {
        let found = size(rt.alloc(), source, query, turns, frames)?;
        assert_eq!(rt; found, expected);
    }
    Ok(())
}

#[test]
fn operations(rt: HostRuntime) -> Result<(), Fail> {
    let rows = [
        ("int f(int x) { return x + 1; }", 256),
        ("int f(int x) { return (x ^ 1) & (x | 2); }", 384),
        ("int f(int x) { return ~x - -x; }", 128 + 256 + 256),
        ("int f(long x) { return !x; }", 256),
        (
            "long f(long x, int y) { return (x << y) + (x >> y); }",
            3 * 512 + 2 * 1024,
        ),
        ("long f(long x, long y) { return x * y; }", 32_768),
        ("long f(long x, long y) { return x % y; }", 65_536),
        ("int f(signed char x) { return x * x; }", 8_192),
        // stores and loads of an element of four, of 32 bits and of 8
        ("int f(int i) { int a[4]; a[i] = i; return a[i]; }", 2 * 512),
        (
            "int f(int i) { char a[4]; a[i] = i; return a[i]; }",
            2 * 128,
        ),
        (
            "int f(int i) { int a[4]; a[i + 1] = i; return 0; }",
            512 + 256,
        ),
        // the index counts for the load and for the store
        (
            "int f(int i) { int a[4]; a[i + 1] += 2; return 0; }",
            2 * 512 + 3 * 256,
        ),
        (
            "#include <assert.h>\nint f(int x) { assert(x < 3); return x; }",
            256,
        ),
        ("int in(void); int f(void) { return in() + 1; }", 256),
    ];
    for (source, expected) in rows {
        assert_eq!(rt; size(rt.alloc(), source, "cover ID", 0, 1)?, expected);
    }
    Ok(())
}

// So many quotients of 64 bits, each of which weighs 65,536, and an answer.
fn quotients(alloc: Global, count: u32, answer: &str) -> Result<String, Fail> {
    let mut source = String::new(alloc);
    source.push_str("long f(long x, long y) {")?;
    for _ in 0..count {
        source.push_str(" x = x / y;")?;
    }
    source.push_str(" return ")?;
    source.push_str(answer)?;
    source.push_str("; }")?;
    Ok(source)
}

#[test]
fn at_the_limit(rt: HostRuntime) -> Result<(), Fail> {
    let source = quotients(rt.alloc(), 63, "x")?;
    assert_eq!(rt;
        size(rt.alloc(), source.as_str(), "cover ID", 0, 1)?,
        4_128_768
    );
    let source = quotients(rt.alloc(), 64, "x")?;
    assert_eq!(rt;
        size(rt.alloc(), source.as_str(), "cover ID", 0, 1)?,
        4_194_304
    );
    for (count, answer) in [(64, "~x"), (65, "x")] {
        let source = quotients(rt.alloc(), count, answer)?;
        match size_in(rt.alloc(), source.as_str(), "cover ID", 0, 1)? {
            Ok(_) => return Err(Fail::from("not too large")),
            Err(
                Refusal {
                    code,
                    place: Place::Limit { number },
                },
            ) => {
                assert_eq!(rt; (code, number), (81, 4_194_304));
            }
            Err(_) => return Err(Fail::from("no limit")),
        }
    }
    Ok(())
}

// 49,998 pairs: behind the loop the edges of 16,665 tests meet, in a store of two cells.
#[test]
fn many_pairs(rt: HostRuntime) -> Result<(), Fail> {
    assert_eq!(rt; size(rt.alloc(), IDLE, "cover ID", 16_664, 1)?, 16_664 * 16);
    Ok(())
}
