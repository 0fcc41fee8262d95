// Expected values: by hand, and by trying all splits.
mod splits;

use containers::{Boxed, TryClone, Vector};
use fq_core::Memory;
use patterns::{Letter, NumberSet, PathView, Pattern, letters, matches};
use splits::splits;
use std::alloc::Global;
use std::test::Fail;

type Made = Result<Pattern<Letter>, Memory>;

// A letter of this one node.
fn node(alloc: Global, number: u32) -> Made {
    let mut numbers = Vec::new(alloc);
    numbers.push(number)?;
    Ok(Pattern::Letter(Letter::Nodes(NumberSet::new(alloc, numbers)?)))
}

// A letter of this one edge.
fn edge(alloc: Global, number: u32) -> Made {
    let mut numbers = Vec::new(alloc);
    numbers.push(number)?;
    Ok(Pattern::Letter(Letter::Edges(NumberSet::new(alloc, numbers)?)))
}

// A letter of all edges below eight.
fn any_edge(alloc: Global) -> Made {
    let numbers = vec![in alloc; 0u32, 1, 2, 3, 4, 5, 6, 7]?;
    Ok(Pattern::Letter(Letter::Edges(NumberSet::new(alloc, numbers)?)))
}

fn predicate(number: u32) -> Pattern<Letter> {
    Pattern::Letter(Letter::Predicate(number))
}

fn absent(number: u32) -> Pattern<Letter> {
    Pattern::Letter(Letter::Absent(number))
}

fn dot(alloc: Global, a: Pattern<Letter>, b: Pattern<Letter>) -> Made {
    Ok(Pattern::Dot(Boxed::new(alloc, a)?, Boxed::new(alloc, b)?))
}

fn either(alloc: Global, a: Pattern<Letter>, b: Pattern<Letter>) -> Made {
    Ok(Pattern::Either(Boxed::new(alloc, a)?, Boxed::new(alloc, b)?))
}

fn repeat(alloc: Global, body: Pattern<Letter>, least: u32, most: Option<u32>) -> Made {
    Ok(Pattern::Repeat {
        body: Boxed::new(alloc, body)?,
        least,
        most,
    })
}

// Nodes 0 1 2 1 3, edges 0 1 2 3, predicate 0 at the states 1 and 3, predicate 5 at the last.
fn path(alloc: Global) -> Result<PathView, Memory> {
    Ok(PathView {
        nodes: Vector::from_vec(vec![in alloc; 0u32, 1, 2, 1, 3]?),
        edges: Vector::from_vec(vec![in alloc; 0u32, 1, 2, 3]?),
        masks: Vector::from_vec(vec![in alloc; 0u64, 1, 0, 1, 32]?),
    })
}

// Each form, nested repetitions, bounds that cross, and parts that match one state alone.
fn samples(alloc: Global) -> Result<Vec<Pattern<Letter>>, Memory> {
    let mut all = Vec::new(alloc);
    all.push(Pattern::Nothing)?;
    all.push(node(alloc, 1)?)?;
    all.push(edge(alloc, 2)?)?;
    all.push(predicate(0))?;
    all.push(predicate(5))?;
    all.push(predicate(64))?;
    all.push(absent(0))?;
    all.push(absent(5))?;
    all.push(absent(64))?;
    all.push(dot(alloc, absent(0), any_edge(alloc)?)?)?;
    all.push(repeat(alloc, dot(alloc, any_edge(alloc)?, absent(0))?, 1, None)?)?;
    all.push(dot(alloc, edge(alloc, 0)?, edge(alloc, 1)?)?)?;
    all.push(dot(alloc, node(alloc, 1)?, predicate(0))?)?;
    all.push(dot(alloc, any_edge(alloc)?, predicate(0))?)?;
    all.push(dot(alloc, predicate(0), any_edge(alloc)?)?)?;
    all.push(either(alloc, edge(alloc, 3)?, node(alloc, 2)?)?)?;
    all.push(repeat(alloc, any_edge(alloc)?, 0, None)?)?;
    all.push(repeat(alloc, any_edge(alloc)?, 2, None)?)?;
    all.push(repeat(alloc, any_edge(alloc)?, 1, Some(2))?)?;
    all.push(repeat(alloc, any_edge(alloc)?, 3, Some(2))?)?;
    all.push(repeat(alloc, any_edge(alloc)?, 0, Some(0))?)?;
    all.push(repeat(alloc, predicate(0), 2, Some(3))?)?;
    all.push(repeat(alloc, Pattern::Nothing, 0, None)?)?;
    all.push(repeat(alloc, Pattern::Nothing, 1, None)?)?;
    let star = repeat(alloc, any_edge(alloc)?, 0, None)?;
    all.push(repeat(alloc, star, 2, Some(3))?)?;
    let step = either(alloc, predicate(0), any_edge(alloc)?)?;
    all.push(repeat(alloc, step, 3, None)?)?;
    let pair = dot(alloc, any_edge(alloc)?, any_edge(alloc)?)?;
    all.push(repeat(alloc, pair, 1, None)?)?;
    Ok(all)
}

#[test]
fn matches_by_all_splits(rt: HostRuntime) -> Result<(), Fail> {
    let alloc = rt.alloc();
    let path = path(alloc)?;
    assert_eq!(rt; path.nodes.len(), 5);
    assert_eq!(rt; path.edges.len(), 4);
    assert_eq!(rt; path.masks.len(), 5);
    for (number, pattern) in samples(alloc)?.iter().enumerate() {
        for from in 0..5u32 {
            for to in from..5u32 {
                let found = matches(pattern, &path, from, to)?;
                let wanted = splits(pattern, &path, from as usize, to as usize);
                assert_eq!(rt; found, wanted, "pattern {number} from {from} to {to}");
            }
        }
    }
    Ok(())
}

// On the path with edges 0, 2 the two edges one after the other match the whole and not its first edge.
#[test]
fn two_edges(rt: HostRuntime) -> Result<(), Fail> {
    let alloc = rt.alloc();
    let path = PathView {
        nodes: Vector::from_vec(vec![in alloc; 0u32, 1, 3]?),
        edges: Vector::from_vec(vec![in alloc; 0u32, 2]?),
        masks: Vector::from_vec(vec![in alloc; 0u64, 0, 0]?),
    };
    assert_eq!(rt; path.nodes.len(), 3);
    assert_eq!(rt; path.edges.len(), 2);
    assert_eq!(rt; path.masks.len(), 3);
    let pattern = dot(alloc, edge(alloc, 0)?, edge(alloc, 2)?)?;
    assert!(rt; matches(&pattern, &path, 0, 2)?);
    assert!(rt; !matches(&pattern, &path, 0, 1)?);
    Ok(())
}

#[test]
fn letters_of_patterns(rt: HostRuntime) -> Result<(), Fail> {
    let alloc = rt.alloc();
    let one = any_edge(alloc)?;
    assert_eq!(rt; letters(&one), 1);
    assert_eq!(rt; letters(&Pattern::<Letter>::Nothing), 0);
    assert_eq!(rt; letters(&dot(alloc, one, predicate(3))?), 2);
    assert_eq!(rt; letters(&repeat(alloc, any_edge(alloc)?, 7, None)?), 8);
    assert_eq!(rt; letters(&repeat(alloc, any_edge(alloc)?, 7, Some(9))?), 9);
    let eighty = repeat(alloc, any_edge(alloc)?, 80, Some(80))?;
    assert_eq!(rt; letters(&repeat(alloc, eighty, 80, Some(80))?), 6400);
    let mut tower = any_edge(alloc)?;
    for _ in 0..10 {
        tower = repeat(alloc, tower, 100, Some(100))?;
    }
    assert_eq!(rt; letters(&tower), u64::MAX);
    Ok(())
}

#[test]
fn sets_are_shared(rt: HostRuntime) -> Result<(), Fail> {
    let alloc = rt.alloc();
    let set = NumberSet::new(alloc, vec![in alloc; 2u32, 3, 9]?)?;
    let other = set.try_clone(alloc)?;
    for (number, wanted) in [
        (0, false),
        (2, true),
        (3, true),
        (4, false),
        (9, true),
        (10, false),
    ] {
        assert_eq!(rt; other.contains(number), wanted, "at {number}");
    }
    assert_eq!(rt; set.as_slice(), [2u32, 3, 9].as_slice());
    Ok(())
}
