//! Takes an automaton along a path, for bench/automata: `step_automata SHAPE ALIVE LEAVES STEPS`.
//!
//! The shapes are rows of letters that nest to the left or to the right, choices and arrows. Alive are no matches, matches
//! that may only begin, one match, or one in each leaf. It says whether some match has been found.
#![tactic(auto)]

mod patterns_of;
mod step;

use automata::{Nfa, accepted, advance, begin, build};
use circuit::{Memory, Plain};
use patterns::Letter;
use patterns_of::{Alive, Shape, pattern};
use std::alloc::Global;
use std::process::ExitCode;
use std::{env, io};
use step::{Edge, edge_at};

// What a run is of.
#[derive(Clone, Copy, Debug, Drop)]
struct Run {
    shape: Shape,
    alive: Alive,
    leaves: u32,
    steps: u32,
}

fn shape_of(word: &str) -> Option<Shape> {
    if word == "left" {
        return Some(Shape::Left);
    }
    if word == "right" {
        return Some(Shape::Right);
    }
    if word == "choice" {
        return Some(Shape::Choice);
    }
    if word == "arrows" {
        return Some(Shape::Arrows);
    }
    None
}

fn alive_of(word: &str) -> Option<Alive> {
    if word == "none" {
        return Some(Alive::None);
    }
    if word == "beginning" {
        return Some(Alive::Beginning);
    }
    if word == "one" {
        return Some(Alive::One);
    }
    if word == "all" {
        return Some(Alive::All);
    }
    None
}

fn number(word: &str) -> Option<u32> {
    match word.parse::<u32>() {
        Ok(number) => Some(number),
        Err(_) => None,
    }
}

fn run_of(words: &[String]) -> Option<Run> {
    if words.len() != 5 {
        return None;
    }
    Some(Run {
        shape: shape_of(words[1].as_str())?,
        alive: alive_of(words[2].as_str())?,
        leaves: number(words[3].as_str())?,
        steps: number(words[4].as_str())?,
    })
}

// Whether some match has been found after so many steps.
fn found(alloc: Global, automaton: &Nfa<Letter>, run: Run) -> Result<bool, Memory> {
    let mut truth = Plain;
    let mut reach = begin(alloc, &mut truth, automaton, &Edge(u32::MAX))?;
    for place in 0..run.steps {
        let edge = edge_at(run.shape, run.alive, run.leaves, place);
        advance(&mut truth, automaton, &mut reach, &edge, true)?;
    }
    accepted(&mut truth, automaton, &reach)
}

fn answer(alloc: Global, run: Run) -> Result<bool, Memory> {
    let pattern = pattern(alloc, run.shape, run.alive, run.leaves)?;
    let first = match run.alive {
        Alive::None => true,
        Alive::One => true,
        _ => false,
    };
    let automaton = build(alloc, &pattern, first, false)?;
    found(alloc, &automaton, run)
}

fn main(rt: HostRuntime) -> Result<ExitCode, io::Error> {
    let mut words = Vec::new(rt.alloc());
    for word in env::args(&rt)? {
        words.push(word)?;
    }
    let Some(run) = run_of(&words) else {
        println!(rt; "step_automata SHAPE ALIVE LEAVES STEPS")?;
        return Ok(ExitCode::from(2));
    };
    match answer(rt.alloc(), run) {
        Ok(true) => println!(rt; "a match")?,
        Ok(false) => println!(rt; "no match")?,
        Err(_) => {
            println!(rt; "no memory")?;
            return Ok(ExitCode::from(1));
        }
    }
    Ok(ExitCode::from(0))
}
