use c_front::automaton_of_texts;
use fq_core::{Fault, Place, Refusal};
use std::alloc::Global;
use std::test::Fail;
use test_programs::texts_of;
use unwinder_reach::reached::*;

static CALL: &str = "int g(int v) { return v; }\nint f(int x) { return g(x); }\n";

static LOOP: &str = "int f(int n) { int i = 0; while (i < n) { i = i + 1; } return i; }\n";

static RECURSION: &str = "int f(int n) { if (n) { return f(n - 1); } return 0; }\n";

// The pairs from the entry of f, or the refusal.
fn reached_in(
    alloc: Global,
    source: &str,
    turns: u32,
    frames: u32,
) -> Result<Result<Reached, Refusal>, Fail> {
    let Ok(texts) = texts_of(alloc, &[("a.c", source)]) else {
        return Err(Fail::from("no memory"));
    };
    if !c_lex::are_small(&texts) || texts.len() != 1 {
        return Err(Fail::from("no unit"));
    }
    let Ok(graph) = automaton_of_texts(alloc, &texts) else {
        return Err(Fail::from("no automaton"));
    };
    let Some(entry) = graph.function_named(b"f") else {
        return Err(Fail::from("no function"));
    };
    if entry as usize >= graph.functions().len() || frames == 0 {
        return Err(Fail::from("no entry"));
    }
    let bounds = Bounds {
        turns,
        frames,
        answers: 0,
    };
    match reached(alloc, &graph, entry, bounds) {
        Ok(reached) => Ok(Ok(reached)),
        Err(Fault::Refused(refusal)) => Ok(Err(refusal)),
        Err(Fault::Memory) => Err(Fail::from("no memory")),
    }
}

fn count(alloc: Global, source: &str, turns: u32, frames: u32) -> Result<(usize, usize), Fail> {
    let Ok(reached) = reached_in(alloc, source, turns, frames)? else {
        return Err(Fail::from("too many"));
    };
    let mut steps: usize = 0;
    for row in reached.steps.iter() {
        steps = steps.wrapping_add(row.len());
    }
    Ok((reached.pairs.len(), steps))
}

// f's entry, g's entry and exit, the node after the call, and f's exit, one step between each two. With one frame f's call
// is not taken.
#[test]
fn a_call(rt: HostRuntime) -> Result<(), Fail> {
    assert_eq!(rt; count(rt.alloc(), CALL, 0, 2)?, (5, 4));
    assert_eq!(rt; count(rt.alloc(), CALL, 0, 1)?, (1, 0));
    Ok(())
}

// What stands outside the loop is there once: f's entry and exit, and the nodes before and behind the loop. The loop's three
// nodes are there for each turn and once more. Each turn has a step to the body, one to its end, one out and one back, and
// the last has no step back.
#[test]
fn a_loop(rt: HostRuntime) -> Result<(), Fail> {
    assert_eq!(rt; count(rt.alloc(), LOOP, 0, 1)?, (7, 6));
    assert_eq!(rt; count(rt.alloc(), LOOP, 1, 1)?, (10, 10));
    assert_eq!(rt; count(rt.alloc(), LOOP, 100, 1)?, (307, 406));
    Ok(())
}

// Each frame has f's entry and exit, the arm and the node behind the `if`, with three steps. Each that calls again has the
// node behind the call too, and the steps of the call, of the return and from that node.
#[test]
fn a_recursion(rt: HostRuntime) -> Result<(), Fail> {
    assert_eq!(rt; count(rt.alloc(), RECURSION, 0, 1)?, (4, 3));
    assert_eq!(rt; count(rt.alloc(), RECURSION, 0, 2)?, (9, 9));
    assert_eq!(rt; count(rt.alloc(), RECURSION, 0, 3)?, (14, 15));
    Ok(())
}

// As many turns of the loop as 50,000 pairs have room for: four pairs outside of it, and three for each turn and once more.
#[test]
fn most_pairs(rt: HostRuntime) -> Result<(), Fail> {
    assert_eq!(rt; count(rt.alloc(), LOOP, 16_664, 1)?, (49_999, 66_662));
    Ok(())
}

// One turn more.
#[test]
fn too_many_pairs(rt: HostRuntime) -> Result<(), Fail> {
    match reached_in(rt.alloc(), LOOP, 16_665, 1)? {
        Ok(_) => Err(Fail::from("not too many")),
        Err(
            Refusal {
                code,
                place: Place::Limit { number },
            },
        ) => {
            assert_eq!(rt; (code, number), (80, 50_000));
            Ok(())
        }
        Err(_) => Err(Fail::from("no limit")),
    }
}
