// The goals of a query over the sources' automaton.
ghost use Rattle.command_words.specs.Request.{listing};
ghost use Rattle.command_words.specs.Request as asks;
ghost use Rattle.command.specs.Answered.{IsTold};
ghost use Rattle.command.specs.Reads.{reads};

use crate::query::plan_bytes;
use crate::reply::Reply;
use crate::sources::automaton;
use command_words::Goals;
use fq_core::Fault;
use fq_io::Files;
use report::goals_text;
use std::alloc::Global;

/// What is due of `goals`.
pub fn goals<F: Files>(alloc: Global, request: &Goals, files: &mut F) -> Result<Reply, Fault>
    ensures { IsTold (reads F.Files files.old files.new) (asks.goals (listing request.now)) result }
{
    let automaton = automaton(alloc, files, &request.sources)?;
    let made = plan_bytes(alloc, &automaton.graph, request.query.as_bytes())?;
    let text = goals_text(alloc, &automaton.graph, &made.1)?;
    Ok(Reply::Answer {
        text,
        left_open: false,
    })
}
