// The text of the sources' automaton.
ghost use Rattle.command_words.specs.Request.{texts_at};
ghost use Rattle.command_words.specs.Request as asks;
ghost use Rattle.command.specs.Answered.{IsTold};
ghost use Rattle.command.specs.Reads.{reads};

use crate::reply::Reply;
use crate::sources::automaton;
use fq_core::Fault;
use fq_io::Files;
use report::graph_text;
use std::alloc::Global;

/// What is due of `graph`.
pub fn graph<F: Files>(alloc: Global, sources: &[&str], files: &mut F) -> Result<Reply, Fault>
    ensures { IsTold (reads F.Files files.old files.new)
        (asks.graph (texts_at sources.now)) result }
{
    let automaton = automaton(alloc, files, sources)?;
    let text = graph_text(alloc, &automaton.graph)?;
    Ok(Reply::Answer {
        text,
        left_open: false,
    })
}
