// Inputs made for the goals of a query.
ghost use Rattle.std.specs.Prelude.{◌≡◌, List, IfOk};
ghost use Rattle.command_words.specs.Reading.{Text};
ghost use Rattle.command_words.specs.Request.{generating};
ghost use Rattle.command_words.specs.Request as asks;
ghost use Rattle.command.specs.Answered.{IsGiven};
ghost use Rattle.command.specs.Generate.{is_open};
ghost use Rattle.command.specs.Ranges.{IsInRange, within};
ghost use Rattle.command.specs.Reads.{reads};
ghost use Rattle.command.specs.Replies.{Gives};
ghost use Rattle.command.specs.Parts.{IsGenerationFor, IsMadeAs, IsReportable, report_for};
ghost use Rattle.command.specs.Watched.{watched};

use crate::query::plan_at;
use crate::reply::Reply;
use crate::sources::automaton;
use command_words::Generate;
use fq_core::{Fault, Memory};
use fq_io::Files;
use goals::Answer;
use report::{generated_json, generated_text};
use search::Watch;
use std::alloc::Global;
use suite::reduce;
use suite_problem::{Generated, Given};
use unwinder_reach::reached::Bounds;

/// The bounds that the words give.
pub fn within(bounds: command_words::Bounds) -> Bounds
    ensures { result ≡ within bounds }
{
    Bounds {
        turns: bounds.turns,
        frames: bounds.frames,
        answers: bounds.answers,
    }
}

/// Whether some goal stays undecided.
pub fn is_open(answers: &[Answer]) -> bool
    ensures { result ≡ is_open answers.now }
{
    answers
        .iter()
        .any(|answer| matches!(answer, Answer::Undecided))
}

// The report of what was made.
fn report(
    alloc: Global,
    given: &Given,
    budget: u64,
    json: bool,
    made: &Generated,
) -> Result<Vec<u8>, Memory>
    requires { IsReportable given.now made.now }
    ensures { IfOk result (λ text. text.items ≡ report_for given.now budget json made.now) }
{
    let graph = given.planned.entry.graph;
    let entry = given.planned.entry.number;
    let plan = &given.planned.plan;
    let bounds = given.bounds;
    let ends = given.ends;
    let kept = reduce(alloc, &made.hits)?;
    if json {
        generated_json(alloc, graph, plan, entry, made, &kept, bounds, budget, ends)
    } else {
        generated_text(alloc, graph, plan, entry, made, &kept, bounds, budget, ends)
    }
}

/// Makes inputs for the goals.
pub fn make_inputs<W: Watch>(
    alloc: Global,
    given: &Given,
    budget: u64,
    watch: &mut W,
) -> Result<Generated, Fault>
    ensures { IsMadeAs given.now budget (watched W.Watch watch.old watch.new) result }
{
    suite::generate(alloc, given, budget, watch)
}

// Makes inputs for the goals, and reports them.
fn generation<W: Watch>(
    alloc: Global,
    given: &Given,
    budget: u64,
    json: bool,
    watch: &mut W,
) -> Result<Reply, Fault>
    ensures { (names : List Text) →
        Gives (IsGenerationFor given.now budget (report_for given.now budget json) names) names
        (watched W.Watch watch.old watch.new) result }
{
    let made = make_inputs(alloc, given, budget, watch)?;
    let text = report(alloc, given, budget, json, &made)?;
    Ok(Reply::Answer {
        text,
        left_open: is_open(&made.answers),
    })
}

/// What is due of `generate`.
pub fn generate<F: Files, W: Watch>(
    alloc: Global,
    request: &Generate,
    files: &mut F,
    watch: &mut W,
) -> Result<Reply, Fault>
    requires { IsInRange (asks.generate (generating request.now)) }
    ensures { IsGiven (reads F.Files files.old files.new) (watched W.Watch watch.old watch.new)
        (asks.generate (generating request.now)) result }
{
    let automaton = automaton(alloc, files, &request.sources)?;
    let planned = plan_at(alloc, &automaton, request.entry, request.query.as_bytes())?;
    let given = Given {
        planned,
        bounds: within(request.bounds),
        ends: request.ends,
    };
    generation(alloc, &given, request.budget as u64, request.json, watch)
}
