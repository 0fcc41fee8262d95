// The trace file that the words name, and the report of measuring it.
ghost use Rattle.std.specs.Prelude.{◌≡◌, ◌+◌, ◌<◌, ◌^◌, IfOk};
ghost use Rattle.command_words.specs.Request.{replaying};
ghost use Rattle.command_words.specs.Request as asks;
ghost use Rattle.command.specs.Answered.{IsTold};
ghost use Rattle.command.specs.Reads.{reads};
ghost use Rattle.command.specs.Calls.{AreTracesAs};
ghost use Rattle.command.specs.TraceFile.{inputs_in, longest};

use crate::measure::report;
use crate::query::plan_at;
use crate::reply::Reply;
use crate::sources::{automaton, read};
use crate::types::Steps;
use c_meaning::Input;
use command_words::Replay;
use fq_core::{Fault, Memory};
use fq_io::Files;
use path_runner::Ends;
use std::alloc::Global;
use suite_problem::Planned;
use trace_file::{Trace, read_trace};

const MOST_TRACE_BYTES: u64 = 16_777_216;

// Reads the traces of a file.
fn read_traces<F: Files>(
    alloc: Global,
    files: &mut F,
    planned: &Planned,
    ends: Ends,
    file: &str,
) -> Result<Vec<Trace>, Fault>
    ensures { AreTracesAs (reads F.Files files.old files.new) planned.now ends file.now result }
{
    let bytes = read(alloc, files, file, MOST_TRACE_BYTES)?;
    let entry = &planned.entry;
    read_trace(
        alloc,
        entry.graph,
        entry.number,
        &planned.predicates,
        ends,
        &bytes,
    )
}

// The most edges of a trace.
fn longest(traces: &[Trace]) -> u64
    ensures longest { result ≡ longest traces.now }
    ensures few { result + 1 < 2 ^ 64 }
{
    let mut most = 0;
    for trace in traces {
        most = most.max(trace.run.edges.as_slice().len() as u64);
    }
    most
}

// The inputs of traces.
fn inputs_in(alloc: Global, traces: Vec<Trace>) -> Result<Vec<Input>, Memory>
    ensures { IfOk result (λ inputs. inputs.items ≡ inputs_in traces.items) }
{
    let mut inputs = Vec::new(alloc);
    for trace in traces {
        inputs.push(trace.input)?;
    }
    Ok(inputs)
}

/// What is due of `replay`.
pub fn replay<F: Files>(alloc: Global, request: &Replay, files: &mut F) -> Result<Reply, Fault>
    ensures { IsTold (reads F.Files files.old files.new)
        (asks.replay (replaying request.now)) result }
{
    let automaton = automaton(alloc, files, &request.sources)?;
    let planned = plan_at(alloc, &automaton, request.entry, request.query.as_bytes())?;
    let traces = read_traces(alloc, files, &planned, request.ends, request.traces)?;
    let steps = Steps {
        edges: longest(&traces),
    };
    let inputs = inputs_in(alloc, traces)?;
    let text = report(alloc, &planned, request.ends, steps, request.json, &inputs)?;
    Ok(Reply::Answer {
        text,
        left_open: false,
    })
}
