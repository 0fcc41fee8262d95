// Expected values: by the plain program that goes by splits, and by hand.
mod described;
mod recorded;
mod runs;
mod samples;
mod worlds;

use automata::build;
use circuit::{Circuit, Lit};
use containers::Vector;
use described::Described;
use fq_core::Memory;
use patterns::{Letter, PathView, Pattern, matches};
use recorded::Recorded;
use runs::{guarded, hits};
use samples::{Made, any_edge, dot, edge, node, paths, predicate, repeat, samples};
use std::alloc::Global;
use std::test::Fail;
use worlds::{accepted_where, small};

// Whether some segment that the anchors allow matches, by trying all segments.
fn expected(
    pattern: &Pattern<Letter>,
    path: &PathView,
    first: bool,
    last: bool,
) -> Result<bool, Memory> {
    let edges = path.edges.len();
    if edges > 100 {
        return Ok(false);
    }
    if path.nodes.len() != edges + 1 || path.masks.len() != edges + 1 {
        return Ok(false);
    }
    let end = edges as u32;
    for from in 0..=end {
        for to in from..=end {
            let allowed = (!first || from == 0) && (!last || to == end);
            if allowed && matches(pattern, path, from, to)? {
                return Ok(true);
            }
        }
    }
    Ok(false)
}

// The state of a path at this place, with the edge into it.
fn state_of(path: &PathView, place: usize) -> Recorded {
    Recorded {
        edge: if place == 0 {
            99
        } else {
            path.edges.get(place - 1).copied().unwrap_or(99)
        },
        node: path.nodes.get(place).copied().unwrap_or(99),
        mask: path.masks.get(place).copied().unwrap_or(0),
    }
}

#[test]
fn recorded_paths(rt: HostRuntime) -> Result<(), Fail> {
    let alloc = rt.alloc();
    let paths = paths(alloc)?;
    for (number, pattern) in samples(alloc)?.iter().enumerate() {
        for path in &paths {
            let mut steps = Vec::new(alloc);
            for place in 1..path.nodes.len() {
                steps.push(state_of(path, place))?;
            }
            for (first, last) in [(false, false), (false, true), (true, false), (true, true)] {
                let automaton = build(alloc, pattern, first, last)?;
                let (hit, settled) = hits(alloc, &automaton, state_of(path, 0), &steps)?;
                let wanted = expected(pattern, path, first, last)?;
                let edges = path.edges.len();
                assert_eq!(rt;
                    hit,
                    wanted,
                    "pattern {number} on {edges} edges, {first} {last}"
                );
                assert_eq!(rt; settled, wanted && !last);
            }
        }
    }
    Ok(())
}

// The path that is taken in a world of three predicates and two guards.
fn taken(alloc: Global, world: &[bool; 5]) -> Result<PathView, Memory> {
    let [here, middle, end, first, second] = *world;
    let mut nodes = vec![in alloc; 0u32]?;
    let mut masks = vec![in alloc; here as u64]?;
    let mut edges = Vec::new(alloc);
    if first {
        edges.push(0u32)?;
        nodes.push(1)?;
        masks.push(middle as u64)?;
    }
    if second {
        edges.push(1)?;
        nodes.push(2)?;
        masks.push(end as u64)?;
    }
    Ok(PathView {
        nodes: Vector::from_vec(nodes),
        edges: Vector::from_vec(edges),
        masks: Vector::from_vec(masks),
    })
}

// The bits of a number below 32, as a world.
fn world(number: u32) -> [bool; 5] {
    [
        number & 1 == 1,
        number & 2 == 2,
        number & 4 == 4,
        number & 8 == 8,
        number & 16 == 16,
    ]
}

#[test]
fn paths_that_differ_by_world(rt: HostRuntime) -> Result<(), Fail> {
    let alloc = rt.alloc();
    for (number, pattern) in samples(alloc)?.iter().enumerate() {
        for (first, last) in [(false, false), (false, true), (true, false), (true, true)] {
            let automaton = small(alloc, pattern, first, last)?.ok_or("too many letters")?;
            let mut circuit = Circuit::new(alloc);
            let hit = accepted_where(alloc, &mut circuit, &automaton)?;
            for bits in 0..32 {
                let world = world(bits);
                let found = circuit.value(hit, &world)?;
                let wanted = expected(pattern, &taken(alloc, &world)?, first, last)?;
                assert_eq!(rt;
                    found,
                    wanted,
                    "pattern {number} in world {bits}, {first} {last}"
                );
            }
        }
    }
    Ok(())
}

// By hand: at least two edges 0 and then node 7, free and tied.
#[test]
fn two_edges_and_a_node(rt: HostRuntime) -> Result<(), Fail> {
    let alloc = rt.alloc();
    let row = repeat(alloc, edge(alloc, 0)?, 2, None)?;
    let pattern = dot(alloc, row, node(alloc, 7)?)?;
    let free = build(alloc, &pattern, false, false)?;
    let tied = build(alloc, &pattern, true, true)?;
    let step = |edge: u32, node: u32| Recorded {
        edge,
        node,
        mask: 0,
    };
    let start = step(9, 0);
    let early = [step(0, 0), step(0, 7), step(2, 0)];
    let late = [step(0, 0), step(0, 0), step(0, 7)];
    let apart = [step(0, 7), step(2, 0), step(0, 7)];
    assert_eq!(rt; hits(alloc, &free, start, &early)?, (true, true));
    assert_eq!(rt; hits(alloc, &tied, start, &early)?, (false, false));
    assert_eq!(rt; hits(alloc, &tied, start, &late)?, (true, false));
    assert_eq!(rt; hits(alloc, &free, start, &apart)?, (false, false));
    assert_eq!(rt; hits(alloc, &free, start, &[])?, (false, false));
    Ok(())
}

// A long row on a long path: 500 letters and 500 steps.
#[test]
fn many_letters(rt: HostRuntime) -> Result<(), Fail> {
    let alloc = rt.alloc();
    let row = repeat(alloc, any_edge(alloc)?, 499, None)?;
    let pattern = dot(alloc, row, predicate(3))?;
    let automaton = build(alloc, &pattern, false, false)?;
    let mut steps = Vec::new(alloc);
    for place in 0..500 {
        let mask = if place == 499 { 8 } else { 0 };
        steps.push(Recorded {
            edge: place % 4,
            node: 0,
            mask,
        })?;
    }
    let start = Recorded {
        edge: 99,
        node: 0,
        mask: 8,
    };
    assert_eq!(rt; steps.len(), 500);
    assert_eq!(rt; hits(alloc, &automaton, start, &steps)?, (true, true));
    assert_eq!(rt; hits(alloc, &automaton, start, &steps[1..])?, (true, true));
    assert_eq!(rt;
        hits(alloc, &automaton, start, &steps[2..])?,
        (false, false)
    );
    Ok(())
}

// The edges 0 to 9 in a row.
fn ten_edges(alloc: Global) -> Made {
    let mut row = edge(alloc, 0)?;
    for number in 1..10 {
        row = dot(alloc, row, edge(alloc, number)?)?;
    }
    Ok(row)
}

// Steps by the edges 0 to 9 over and over, from one place of them to another.
fn edges_from(alloc: Global, from: u32, to: u32) -> Result<Vec<Recorded>, Memory> {
    let mut steps = Vec::new(alloc);
    for place in from..to {
        steps.push(Recorded {
            edge: place % 10,
            node: 0,
            mask: 0,
        })?;
    }
    Ok(steps)
}

// By hand: the edges 0 to 9, 300 times, on the edges 5 to 9 and then 0 to 9, 300 times. The match begins at state 5 and ends
// at the last.
#[test]
fn thousands_of_letters(rt: HostRuntime) -> Result<(), Fail> {
    let alloc = rt.alloc();
    let repeated = repeat(alloc, ten_edges(alloc)?, 300, Some(300))?;
    let mut nested = ten_edges(alloc)?;
    for _ in 1..300 {
        nested = dot(alloc, ten_edges(alloc)?, nested)?;
    }
    let start = Recorded {
        edge: 99,
        node: 0,
        mask: 0,
    };
    let whole = edges_from(alloc, 5, 3010)?;
    let one_less = edges_from(alloc, 5, 3009)?;
    let begun_late = edges_from(alloc, 11, 3010)?;
    let begun_there = edges_from(alloc, 10, 3010)?;
    for pattern in [&repeated, &nested] {
        let free = build(alloc, pattern, false, false)?;
        let tied = build(alloc, pattern, true, false)?;
        assert_eq!(rt; hits(alloc, &free, start, &whole)?, (true, true));
        assert_eq!(rt; hits(alloc, &free, start, &one_less)?, (false, false));
        assert_eq!(rt; hits(alloc, &free, start, &begun_late)?, (false, false));
        assert_eq!(rt; hits(alloc, &tied, start, &whole)?, (false, false));
        assert_eq!(rt; hits(alloc, &tied, start, &begun_there)?, (true, true));
    }
    Ok(())
}
