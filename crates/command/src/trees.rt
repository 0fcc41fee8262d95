// How the runs of inputs end by the meaning of the trees.
ghost use Rattle.std.specs.Prelude.{◌≡◌, IfOk};
ghost use Rattle.report.specs.Texts.{inputs_text};
ghost use Rattle.tree_meaning.specs.Running.{FitUnit};
ghost use Rattle.command_words.specs.Request.{running};
ghost use Rattle.command_words.specs.Request as asks;
ghost use Rattle.command.specs.Answered.{IsTold};
ghost use Rattle.command.specs.Reads.{reads};
ghost use Rattle.command.specs.Trees.{ends_on_trees, listed_end};

use crate::entry::entry_named;
use crate::inputs::read_inputs;
use crate::reply::Reply;
use crate::sources::read_trees;
use crate::types::Trees;
use c_meaning::Input;
use command_words::Runs;
use fq_core::{Fault, Memory};
use fq_io::Files;
use path_runner::RunEnd;
use report::inputs_text;
use std::alloc::Global;
use tree_meaning::{TreeEnd, tree_run};

fn listed_end(end: TreeEnd) -> RunEnd
    ensures { result ≡ listed_end end }
{
    match end {
        TreeEnd::Returned { value } => RunEnd::Returned { value },
        TreeEnd::Trapped(trap) => RunEnd::Trapped(trap),
        TreeEnd::Blocked => RunEnd::Blocked,
        TreeEnd::TooDeep => RunEnd::TooDeep,
        TreeEnd::OutOfTurns => RunEnd::Cut,
    }
}

// How the runs of these inputs to the function of a number end, each with so many turns.
fn end_inputs(
    alloc: Global,
    trees: &Trees,
    entry: u32,
    turns: u32,
    inputs: &[Input],
) -> Result<Vec<u8>, Memory>
    requires { FitUnit trees.now.typed }
    ensures { IfOk result (λ text. text.items ≡ inputs_text trees.now.automaton.graph entry
        (ends_on_trees trees.now.typed entry turns inputs.now)) }
{
    let mut ends = Vec::new(alloc);
    for input in inputs {
        let end = tree_run(&trees.typed, entry, input, turns as u64)?;
        ends.push(listed_end(end))?;
    }
    inputs_text(alloc, &trees.automaton.graph, entry, &ends)
}

/// What is due of `trees`.
pub fn trees<F: Files>(alloc: Global, request: &Runs, files: &mut F) -> Result<Reply, Fault>
    ensures { IsTold (reads F.Files files.old files.new) (asks.trees (running request.now)) result }
{
    let trees = read_trees(alloc, files, &request.sources)?;
    let entry = entry_named(&trees.automaton, request.entry)?;
    let inputs = read_inputs(alloc, files, request.inputs, &entry)?;
    let text = end_inputs(alloc, &trees, entry.number, request.steps, &inputs)?;
    Ok(Reply::Answer {
        text,
        left_open: false,
    })
}
