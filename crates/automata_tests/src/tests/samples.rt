// Small patterns and paths.
use containers::{Boxed, TryClone, Vector};
use fq_core::Memory;
use patterns::{Letter, NumberSet, PathView, Pattern};
use std::alloc::Global;

pub type Made = Result<Pattern<Letter>, Memory>;

// A letter of these nodes, which rise.
pub fn node(alloc: Global, number: u32) -> Made {
    let mut numbers = Vec::new(alloc);
    numbers.push(number)?;
    Ok(Pattern::Letter(Letter::Nodes(NumberSet::new(alloc, numbers)?)))
}

// A letter of this one edge.
pub fn edge(alloc: Global, number: u32) -> Made {
    let mut numbers = Vec::new(alloc);
    numbers.push(number)?;
    Ok(Pattern::Letter(Letter::Edges(NumberSet::new(alloc, numbers)?)))
}

// A letter of all edges below four.
pub fn any_edge(alloc: Global) -> Made {
    let numbers = vec![in alloc; 0u32, 1, 2, 3]?;
    Ok(Pattern::Letter(Letter::Edges(NumberSet::new(alloc, numbers)?)))
}

pub fn predicate(number: u32) -> Pattern<Letter> {
    Pattern::Letter(Letter::Predicate(number))
}

pub fn absent(number: u32) -> Pattern<Letter> {
    Pattern::Letter(Letter::Absent(number))
}

pub fn dot(alloc: Global, a: Pattern<Letter>, b: Pattern<Letter>) -> Made {
    Ok(Pattern::Dot(Boxed::new(alloc, a)?, Boxed::new(alloc, b)?))
}

pub fn either(alloc: Global, a: Pattern<Letter>, b: Pattern<Letter>) -> Made {
    Ok(Pattern::Either(Boxed::new(alloc, a)?, Boxed::new(alloc, b)?))
}

pub fn repeat(alloc: Global, body: Pattern<Letter>, least: u32, most: Option<u32>) -> Made {
    Ok(Pattern::Repeat {
        body: Boxed::new(alloc, body)?,
        least,
        most,
    })
}

// Each form alone, and parts that match one state alone.
fn simple(alloc: Global, all: &mut Vec<Pattern<Letter>>) -> Result<(), Memory> {
    all.push(Pattern::Nothing)?;
    all.push(node(alloc, 1)?)?;
    all.push(edge(alloc, 2)?)?;
    all.push(predicate(0))?;
    all.push(absent(1))?;
    all.push(dot(alloc, edge(alloc, 0)?, edge(alloc, 1)?)?)?;
    all.push(dot(alloc, node(alloc, 1)?, predicate(0))?)?;
    all.push(dot(alloc, any_edge(alloc)?, predicate(0))?)?;
    all.push(dot(alloc, predicate(0), any_edge(alloc)?)?)?;
    all.push(either(alloc, edge(alloc, 3)?, node(alloc, 2)?)?)?;
    all.push(dot(alloc, Pattern::Nothing, edge(alloc, 0)?)?)?;
    all.push(either(alloc, Pattern::Nothing, edge(alloc, 0)?)?)?;
    Ok(())
}

// Repetitions: bounds that cross, nested ones, bodies without letters and bodies that match a state alone.
fn repeated(alloc: Global, all: &mut Vec<Pattern<Letter>>) -> Result<(), Memory> {
    all.push(repeat(alloc, any_edge(alloc)?, 0, None)?)?;
    all.push(repeat(alloc, any_edge(alloc)?, 2, None)?)?;
    all.push(repeat(alloc, any_edge(alloc)?, 1, Some(2))?)?;
    all.push(repeat(alloc, any_edge(alloc)?, 3, Some(2))?)?;
    all.push(repeat(alloc, any_edge(alloc)?, 0, Some(0))?)?;
    all.push(repeat(alloc, predicate(0), 2, Some(3))?)?;
    all.push(repeat(alloc, Pattern::Nothing, 0, None)?)?;
    all.push(repeat(alloc, Pattern::Nothing, 1, None)?)?;
    let none = repeat(alloc, edge(alloc, 1)?, 0, Some(0))?;
    all.push(repeat(alloc, none, 100, Some(100))?)?;
    let star = repeat(alloc, edge(alloc, 0)?, 0, None)?;
    let stars = repeat(alloc, repeat(alloc, star, 0, None)?, 0, None)?;
    all.push(dot(alloc, stars, node(alloc, 1)?)?)?;
    let star = repeat(alloc, any_edge(alloc)?, 0, None)?;
    all.push(repeat(alloc, star, 2, Some(3))?)?;
    let step = either(alloc, predicate(0), any_edge(alloc)?)?;
    all.push(repeat(alloc, step, 3, None)?)?;
    let pair = dot(alloc, any_edge(alloc)?, any_edge(alloc)?)?;
    all.push(dot(alloc, repeat(alloc, pair, 1, None)?, predicate(0))?)?;
    Ok(())
}

// A row whose parts are rows, and an arrow between two nodes.
fn longer(alloc: Global, all: &mut Vec<Pattern<Letter>>) -> Result<(), Memory> {
    let first = dot(alloc, edge(alloc, 0)?, edge(alloc, 1)?)?;
    let second = dot(alloc, edge(alloc, 2)?, edge(alloc, 3)?)?;
    all.push(dot(alloc, first, second)?)?;
    let star = repeat(alloc, any_edge(alloc)?, 0, None)?;
    let arrow = dot(alloc, dot(alloc, node(alloc, 1)?, star)?, node(alloc, 3)?)?;
    all.push(arrow)?;
    let choice = either(
        alloc,
        dot(alloc, edge(alloc, 1)?, edge(alloc, 2)?)?,
        edge(alloc, 0)?,
    )?;
    all.push(dot(alloc, repeat(alloc, choice, 1, Some(3))?, predicate(0))?)?;
    Ok(())
}

// All of them.
pub fn samples(alloc: Global) -> Result<Vec<Pattern<Letter>>, Memory> {
    let mut all = Vec::new(alloc);
    simple(alloc, &mut all)?;
    repeated(alloc, &mut all)?;
    longer(alloc, &mut all)?;
    Ok(all)
}

// Paths of five states, of one, and of three with an edge that comes again.
pub fn paths(alloc: Global) -> Result<Vec<PathView>, Memory> {
    let mut all = Vec::new(alloc);
    all.push(PathView {
        nodes: Vector::from_vec(vec![in alloc; 0u32, 1, 2, 1, 3]?),
        edges: Vector::from_vec(vec![in alloc; 0u32, 1, 2, 3]?),
        masks: Vector::from_vec(vec![in alloc; 0u64, 1, 0, 1, 0]?),
    })?;
    all.push(PathView {
        nodes: Vector::from_vec(vec![in alloc; 1u32]?),
        edges: Vector::new(alloc),
        masks: Vector::from_vec(vec![in alloc; 1u64]?),
    })?;
    all.push(PathView {
        nodes: Vector::from_vec(vec![in alloc; 0u32, 0, 1]?),
        edges: Vector::from_vec(vec![in alloc; 0u32, 0]?),
        masks: Vector::from_vec(vec![in alloc; 1u64, 0, 0]?),
    })?;
    Ok(all)
}
