//! Unwinds `f` of a source, for bench/unwind: `count_entries FILE TURNS FRAMES`. A line has how many pairs are reached, how
//! many entries there are, and how many wires, or says which code refuses them.
#![tactic(auto)]

ghost use Rattle.std.specs.Prelude.{◌≡◌, [], IfSome, slice_get};
ghost use Rattle.std.specs.Option.{IsSomeAnd};

use c_front::automaton_of_texts;
use c_lex::{SourceText, are_small};
use c_meaning::Ends;
use cfa::{Graph, Predicates};
use containers::Vector;
use fq_core::{Fault, Name};
use fq_io::{Files, RealFiles};
use std::alloc::Global;
use std::process::ExitCode;
use std::{env, io};
use unwinder::unwind;
use unwinder_reach::reached::Bounds;

const MOST_BYTES: u64 = 4 * 1024 * 1024;

// The function `f`, where it has no array parameters.
fn entry_of(graph: &Graph) -> Option<u32>
    ensures { IfSome result (λ entry. IsSomeAnd (slice_get graph.now.functions entry) (λ f. f.arrays ≡ [])) }
{
    let entry = graph.function_named(b"f")?;
    let function = graph.functions().get(entry as usize)?;
    if function.arrays.is_empty() {
        Some(entry)
    } else {
        None
    }
}

// How many pairs, entries and wires there are.
fn count<F: Files>(
    alloc: Global,
    files: &mut F,
    file: &str,
    turns: u32,
    frames: u32,
) -> Result<(u32, usize, u32), Fault> {
    let name = Name::new(alloc, file.as_bytes())?;
    let Ok(bytes) = files.read_whole(alloc, file, MOST_BYTES) else {
        return Err(Fault::Memory);
    };
    let text = SourceText {
        name,
        bytes: Vector::from_vec(bytes),
    };
    let texts = [text];
    if !are_small(&texts) {
        return Err(Fault::Memory);
    }
    let graph = automaton_of_texts(alloc, &texts)?;
    let Some(entry) = entry_of(&graph) else {
        return Err(Fault::Memory);
    };
    if frames == 0 {
        return Err(Fault::Memory);
    }
    let bounds = Bounds {
        turns,
        frames,
        answers: 0,
    };
    let none = Predicates {
        texts: Vector::new(alloc),
        meanings: Vector::new(alloc),
    };
    let unwound = unwind(alloc, &graph, entry, &none, bounds, Ends::Returned)?;
    Ok((
        unwound.pairs,
        unwound.entries.len(),
        unwound.circuit.wires(),
    ))
}

fn main(rt: HostRuntime) -> Result<ExitCode, io::Error> {
    let mut files = RealFiles::new(&rt);
    let mut words = env::args(&rt)?.skip(1);
    let file = words.next();
    let turns = words.next();
    let frames = words.next();
    let Some(file) = file else {
        return Ok(ExitCode::from(1));
    };
    let turns = match &turns {
        None => 0,
        Some(word) => word.as_str().parse::<u32>().unwrap_or(0),
    };
    let frames = match &frames {
        None => 0,
        Some(word) => word.as_str().parse::<u32>().unwrap_or(0),
    };
    match count(rt.alloc(), &mut files, file.as_str(), turns, frames) {
        Ok((pairs, entries, wires)) => {
            println!(rt; "{pairs} {entries} {wires}")?;
            Ok(ExitCode::from(0))
        }
        Err(Fault::Refused(refusal)) => {
            let code = refusal.code;
            println!(rt; "refused {code}")?;
            Ok(ExitCode::from(1))
        }
        Err(Fault::Memory) => {
            println!(rt; "not read, or no memory")?;
            Ok(ExitCode::from(1))
        }
    }
}
