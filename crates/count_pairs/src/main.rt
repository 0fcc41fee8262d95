//! Counts the pairs of node and context that walks from `f` of a source reach, for bench/pairs: `count_pairs FILE TURNS
//! FRAMES`. A line has how many they are, how many steps lead from them, and their size sum, or says which code refuses
//! them.
#![tactic(auto)]

use c_front::automaton_of_texts;
use c_lex::{SourceText, are_small};
use cfa::Predicates;
use containers::Vector;
use fq_core::{Fault, Name};
use fq_io::{Files, RealFiles};
use std::alloc::Global;
use std::process::ExitCode;
use std::{env, io};
use unwinder_reach::reached::{Bounds, Reached, reached};
use unwinder_reach::unwinding_size::size_of_unwinding;

const MOST_BYTES: u64 = 4 * 1024 * 1024;

fn steps_of(reached: &Reached) -> usize {
    let mut steps: usize = 0;
    for row in reached.steps.iter() {
        steps = steps.saturating_add(row.len());
    }
    steps
}

// How many pairs and steps there are, and the size sum.
fn count<F: Files>(
    alloc: Global,
    files: &mut F,
    file: &str,
    turns: u32,
    frames: u32,
) -> Result<(usize, usize, u32), Fault> {
    let name = Name::new(alloc, file.as_bytes())?;
    let Ok(bytes) = files.read_whole(alloc, file, MOST_BYTES) else {
        return Err(Fault::Memory);
    };
    let text = SourceText {
        name,
        bytes: Vector::from_vec(bytes),
    };
    let texts = [text];
    if !are_small(&texts) {
        return Err(Fault::Memory);
    }
    let graph = automaton_of_texts(alloc, &texts)?;
    let Some(entry) = graph.function_named(b"f") else {
        return Err(Fault::Memory);
    };
    if entry as usize >= graph.functions().len() || frames == 0 {
        return Err(Fault::Memory);
    }
    let bounds = Bounds {
        turns,
        frames,
        answers: 0,
    };
    let pairs = reached(alloc, &graph, entry, bounds)?;
    let none = Predicates {
        texts: Vector::new(alloc),
        meanings: Vector::new(alloc),
    };
    let size = size_of_unwinding(alloc, &graph, entry, &none, &pairs)?;
    Ok((pairs.pairs.len(), steps_of(&pairs), size))
}

fn main(rt: HostRuntime) -> Result<ExitCode, io::Error> {
    let mut files = RealFiles::new(&rt);
    let mut words = env::args(&rt)?.skip(1);
    let file = words.next();
    let turns = words.next();
    let frames = words.next();
    let Some(file) = file else {
        return Ok(ExitCode::from(1));
    };
    let turns = match &turns {
        None => 0,
        Some(word) => word.as_str().parse::<u32>().unwrap_or(0),
    };
    let frames = match &frames {
        None => 0,
        Some(word) => word.as_str().parse::<u32>().unwrap_or(0),
    };
    match count(rt.alloc(), &mut files, file.as_str(), turns, frames) {
        Ok((pairs, steps, size)) => {
            println!(rt; "{pairs} {steps} {size}")?;
            Ok(ExitCode::from(0))
        }
        Err(Fault::Refused(refusal)) => {
            let code = refusal.code;
            println!(rt; "refused {code}")?;
            Ok(ExitCode::from(1))
        }
        Err(Fault::Memory) => {
            println!(rt; "not read, or no memory")?;
            Ok(ExitCode::from(1))
        }
    }
}
