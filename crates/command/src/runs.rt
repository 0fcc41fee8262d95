// The runs of inputs, as they are listed.
ghost use Rattle.std.specs.Prelude.{◌≡◌};
ghost use Rattle.command_words.specs.Request.{running};
ghost use Rattle.command_words.specs.Request as asks;
ghost use Rattle.command.specs.Answered.{IsTold};
ghost use Rattle.command.specs.Entries.{seen};
ghost use Rattle.command.specs.Reads.{reads};
ghost use Rattle.command.specs.Replies.{Tells};
ghost use Rattle.command.specs.RunList.{AreRecordedAs, IsRecorded, most_listed};
ghost use Rattle.fq_core.specs.declared.refusal.Fault.TheVariants as fault;
ghost use Rattle.fq_core.specs.declared.refusal.Place.TheVariants as place;
ghost use Rattle.command_words.specs.Reading.{Text};
ghost use Rattle.std.specs.Prelude.{List};

use crate::entry::entry_named;
use crate::inputs::read_inputs;
use crate::measure::run_of;
use crate::reply::Reply;
use crate::sources::automaton;
use crate::types::{Starts, Steps};
use cfa::Predicates;
use command_words::Runs;
use containers::Vector;
use fq_core::{Fault, Place, Refusal};
use fq_io::Files;
use path_runner::RunEnd;
use report::runs_text;
use std::alloc::Global;

/// The most edges that are listed.
pub const MOST_LISTED: u64 = 10_000_000;

/// The runs have more edges than are listed.
pub fn too_many_edges() -> Fault
    ensures { result ≡ fault.Refused (record { code = 54; place = place.Limit most_listed }) }
{
    Fault::Refused(Refusal {
        code: 54,
        place: Place::Limit {
            number: MOST_LISTED,
        },
    })
}

/// How the runs of these inputs end, each cut after so many edges, and their edges, where they have no more than are listed.
pub fn recorded(
    alloc: Global,
    starts: &Starts,
    steps: u32,
) -> Result<Vec<(RunEnd, Vector<u32>)>, Fault>
    ensures { AreRecordedAs starts.now.entry.graph.now (seen starts.now.entry) steps
        starts.now.inputs.now result }
{
    let entry = starts.entry;
    let inputs = starts.inputs;
    let none = Predicates {
        texts: Vector::new(alloc),
        meanings: Vector::new(alloc),
    };
    let mut runs = Vec::new(alloc);
    let mut listed = 0u64;
    let limit = Steps {
        edges: steps as u64,
    };
    for input in inputs {
        let run = run_of(alloc, &entry, &none, limit, input)?;
        listed += run.edges.len() as u64;
        if listed > MOST_LISTED {
            return Err(too_many_edges());
        }
        runs.push((run.end, run.edges))?;
    }
    Ok(runs)
}

// The list of the runs of these inputs, each cut after so many edges.
fn list(alloc: Global, starts: &Starts, steps: u32) -> Result<Reply, Fault>
    ensures { (names : List Text) →
        Tells (IsRecorded starts.now.entry.graph.now (seen starts.now.entry) steps
        starts.now.inputs.now) names result }
{
    let runs = recorded(alloc, starts, steps)?;
    let entry = starts.entry;
    let text = runs_text(alloc, entry.graph, entry.number, &runs)?;
    Ok(Reply::Answer {
        text,
        left_open: false,
    })
}

/// What is due of `runs`.
pub fn runs<F: Files>(alloc: Global, request: &Runs, files: &mut F) -> Result<Reply, Fault>
    ensures { IsTold (reads F.Files files.old files.new) (asks.runs (running request.now)) result }
{
    let automaton = automaton(alloc, files, &request.sources)?;
    let entry = entry_named(&automaton, request.entry)?;
    let inputs = read_inputs(alloc, files, request.inputs, &entry)?;
    let starts = Starts {
        entry,
        inputs: &inputs,
    };
    list(alloc, &starts, request.steps)
}
