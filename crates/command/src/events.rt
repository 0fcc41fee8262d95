// What happens in the runs of inputs, as it is listed.
ghost use Rattle.std.specs.Prelude.{◌≡◌, List};
ghost use Rattle.command_words.specs.Reading.{Text};
ghost use Rattle.command_words.specs.Request.{running};
ghost use Rattle.command_words.specs.Request as asks;
ghost use Rattle.command.specs.Answered.{IsTold};
ghost use Rattle.command.specs.Entries.{seen};
ghost use Rattle.command.specs.Events.{IsEventful};
ghost use Rattle.command.specs.Reads.{reads};
ghost use Rattle.command.specs.Replies.{Tells};

use crate::entry::entry_named;
use crate::inputs::read_inputs;
use crate::reply::Reply;
use crate::runs::recorded;
use crate::sources::automaton;
use crate::types::Starts;
use command_words::Runs;
use fq_core::Fault;
use fq_io::Files;
use report::events_text;
use std::alloc::Global;

// The events of the runs of these inputs, each cut after so many edges.
fn list(alloc: Global, starts: &Starts, steps: u32) -> Result<Reply, Fault>
    ensures { (names : List Text) →
        Tells (IsEventful starts.now.entry.graph.now (seen starts.now.entry) steps
        starts.now.inputs.now) names result }
{
    let runs = recorded(alloc, starts, steps)?;
    let entry = starts.entry;
    let text = events_text(alloc, entry.graph, entry.number, &runs)?;
    Ok(Reply::Answer {
        text,
        left_open: false,
    })
}

/// What is due of `events`. The edges of the automaton's runs tell what happens by the trees.
pub fn events<F: Files>(alloc: Global, request: &Runs, files: &mut F) -> Result<Reply, Fault>
    ensures { IsTold (reads F.Files files.old files.new)
        (asks.events (running request.now)) result }
{
    let automaton = automaton(alloc, files, &request.sources)?;
    let entry = entry_named(&automaton, request.entry)?;
    let inputs = read_inputs(alloc, files, request.inputs, &entry)?;
    let starts = Starts {
        entry,
        inputs: &inputs,
    };
    list(alloc, &starts, request.steps)
}
