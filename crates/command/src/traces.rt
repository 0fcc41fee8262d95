// The traces of inputs.
ghost use Rattle.std.specs.Prelude.{◌≡◌, ◌++◌, [], ◌∷◌, List, OnOk, if◌then◌else◌};
ghost use Rattle.std.specs.List.{All};
ghost use Rattle.c_meaning.specs.Starts.{CanStart};
ghost use Rattle.cfa.specs.Graph.{IsGraph};
ghost use Rattle.command_words.specs.Reading.{Text};
ghost use Rattle.command_words.specs.Request.{tracing};
ghost use Rattle.command_words.specs.Request as asks;
ghost use Rattle.command.specs.Answered.{IsTold};
ghost use Rattle.command.specs.Entries.{seen};
ghost use Rattle.command.specs.Reads.{reads};
ghost use Rattle.command.specs.Replies.{Tells};
ghost use Rattle.command.specs.Traces.{IsTraced, is_counted};

use crate::entry::entry_named;
use crate::inputs::read_inputs;
use crate::measure::run_of;
use crate::reply::Reply;
use crate::runs::{MOST_LISTED, too_many_edges};
use crate::sources::automaton;
use crate::types::Steps;
use c_meaning::Input;
use cfa::Predicates;
use command_words::Traces;
use containers::Vector;
use fq_core::Fault;
use fq_io::Files;
use path_runner::Ends;
use std::alloc::{AllocError, Global};
use suite_problem::Entry;
use trace_file::{Trace, trace_text};

// Adds a trace whose run is counted.
fn keep_counted(traces: &mut Vec<Trace>, ends: Ends, trace: Trace) -> Result<(), AllocError>
    ensures { OnOk result (traces.new.items
        ≡ traces.old.items ++ (if is_counted ends trace then trace ∷ [] else [])) }
{
    if trace.run.end.is_counted(ends) {
        traces.push(trace)?;
    }
    Ok(())
}

// The file of the traces of the inputs whose runs are counted, each cut after so many edges.
fn trace_inputs(
    alloc: Global,
    entry: &Entry,
    ends: Ends,
    steps: u32,
    inputs: Vec<Input>,
) -> Result<Reply, Fault>
    requires { All (λ input. CanStart entry.now.function.now input.words) inputs.items }
    ensures { (names : List Text) →
        Tells (IsTraced entry.now.graph.now (seen entry.now) ends steps inputs.items) names result }
{
    let none = Predicates {
        texts: Vector::new(alloc),
        meanings: Vector::new(alloc),
    };
    let mut traces = Vec::new(alloc);
    let mut listed = 0u64;
    let limit = Steps {
        edges: steps as u64,
    };
    for input in inputs {
        let run = run_of(alloc, entry, &none, limit, &input)?;
        listed += run.edges.len() as u64;
        if listed > MOST_LISTED {
            return Err(too_many_edges());
        }
        keep_counted(&mut traces, ends, Trace { input, run })?;
    }
    // (what the graph's rules say of kinds is needed for the text)
    entry.graph.well_formed();
    let text = trace_text(alloc, &traces, &entry.function.parameters)?;
    Ok(Reply::Answer {
        text,
        left_open: false,
    })
}

/// What is due of `traces`.
pub fn traces<F: Files>(alloc: Global, request: &Traces, files: &mut F) -> Result<Reply, Fault>
    ensures { IsTold (reads F.Files files.old files.new)
        (asks.traces (tracing request.now)) result }
{
    let automaton = automaton(alloc, files, &request.sources)?;
    let entry = entry_named(&automaton, request.entry)?;
    let inputs = read_inputs(alloc, files, request.inputs, &entry)?;
    trace_inputs(alloc, &entry, request.ends, request.steps, inputs)
}
