//! Makes formulas of goals of `f`, for bench/formula: `count_clauses FILE QUERY TURNS GOALS`. A line has how many entries and
//! wires the unwinding has, how many goals were made, from the first on, and how many variables and clauses the last of
//! their formulas has, or says which code refuses it.
#![tactic(auto)]

ghost use Rattle.std.specs.Prelude.{◌≡◌, [], slice_get};
ghost use Rattle.std.specs.Option.{IsSomeAnd};
ghost use Rattle.cfa.specs.Contexts.{IsOnce};
ghost use Rattle.cfa.specs.Predicates.{IsPredicates};
ghost use Rattle.unwinder.specs.Unwinding.{IsUnwound};

use c_front::automaton_of_texts;
use c_lex::{SourceText, are_small};
use c_meaning::Ends;
use cfa::{Graph, Predicates};
use containers::Vector;
use fq_core::{Fault, Name};
use fq_io::{Files, RealFiles};
use fql_read::{Query, read_query};
use goal_formula::formula;
use goals::{Plan, plan_of};
use predicates::resolve;
use std::alloc::Global;
use std::process::ExitCode;
use std::{env, io};
use test_unwindings::{entry_of, unwound_of};
use unwinder::Unwound;
use unwinder_reach::reached::Bounds;

const MOST_BYTES: u64 = 4 * 1024 * 1024;

// What is counted.
#[derive(Clone, Copy, Debug, Drop)]
struct Counts {
    entries: usize,
    wires: u32,
    goals: u32,
    variables: u32,
    clauses: usize,
}

// The formulas of so many goals at most, from the first on.
fn made(
    alloc: Global,
    graph: &Graph,
    predicates: &Predicates,
    unwound: &mut Unwound,
    plan: &Plan,
    most: u32,
) -> Result<Counts, Fault>
    requires predicates { IsPredicates graph.now predicates.now }
    requires unwound { IsSomeAnd (slice_get graph.now.functions unwound.old.entry) (λ f. IsUnwound graph.now predicates.now f unwound.old.entry unwound.old.bounds unwound.old.ends unwound.old) }
{
    let mut counts = Counts {
        entries: unwound.entries.len(),
        wires: unwound.circuit.wires(),
        goals: 0,
        variables: 0,
        clauses: 0,
    };
    for place in 0..most {
        if place as usize >= plan.goals.len() {
            return Ok(counts);
        }
        let goal = formula(alloc, graph, predicates, unwound, plan, place + 1)?;
        counts = Counts {
            goals: place + 1,
            variables: goal.formula.variables,
            clauses: goal.formula.clauses.len(),
            ..counts
        };
    }
    Ok(counts)
}

// The same of a function within bounds.
fn unwound_and_made(
    alloc: Global,
    graph: &Graph,
    entry: u32,
    predicates: &Predicates,
    plan: &Plan,
    turns: u32,
    most: u32,
) -> Result<Counts, Fault>
    requires once { IsOnce graph.now }
    requires entry { IsSomeAnd (slice_get graph.now.functions entry) (λ f. f.arrays ≡ []) }
    requires predicates { IsPredicates graph.now predicates.now }
{
    let bounds = Bounds {
        turns,
        frames: 1,
        answers: 0,
    };
    let mut unwound = unwound_of(alloc, graph, entry, predicates, bounds, Ends::Returned)?;
    made(alloc, graph, predicates, &mut unwound, plan, most)
}

// The same of a file and a query.
fn count<F: Files>(
    alloc: Global,
    files: &mut F,
    file: &str,
    query: &str,
    turns: u32,
    most: u32,
) -> Result<Counts, Fault> {
    let name = Name::new(alloc, file.as_bytes())?;
    let Ok(bytes) = files.read_whole(alloc, file, MOST_BYTES) else {
        return Err(Fault::Memory);
    };
    let text = SourceText {
        name,
        bytes: Vector::from_vec(bytes),
    };
    let texts = [text];
    if !are_small(&texts) {
        return Err(Fault::Memory);
    }
    let graph = automaton_of_texts(alloc, &texts)?;
    let query = read_query(alloc, query.as_bytes())?;
    let predicates = resolve(alloc, &query, &graph)?;
    let plan = plan_of(alloc, &query, &graph)?;
    let Some(entry) = entry_of(&graph) else {
        return Err(Fault::Memory);
    };
    unwound_and_made(alloc, &graph, entry, &predicates, &plan, turns, most)
}

fn number(word: Option<&String>) -> u32 {
    match word {
        None => 0,
        Some(word) => word.as_str().parse::<u32>().unwrap_or(0),
    }
}

fn main(rt: HostRuntime) -> Result<ExitCode, io::Error> {
    let mut files = RealFiles::new(&rt);
    let mut words = env::args(&rt)?.skip(1);
    let file = words.next();
    let query = words.next();
    let turns = words.next();
    let most = words.next();
    let (Some(file), Some(query)) = (file, query) else {
        return Ok(ExitCode::from(1));
    };
    let turns = number(turns.as_ref());
    let most = number(most.as_ref());
    match count(
        rt.alloc(),
        &mut files,
        file.as_str(),
        query.as_str(),
        turns,
        most,
    ) {
        Ok(counts) => {
            println!(rt;
                "{} {} {} {} {}",
                counts.entries, counts.wires, counts.goals, counts.variables, counts.clauses
            )?;
            Ok(ExitCode::from(0))
        }
        Err(Fault::Refused(refusal)) => {
            let code = refusal.code;
            println!(rt; "refused {code}")?;
            Ok(ExitCode::from(1))
        }
        Err(Fault::Memory) => {
            println!(rt; "not read, or no memory")?;
            Ok(ExitCode::from(1))
        }
    }
}
