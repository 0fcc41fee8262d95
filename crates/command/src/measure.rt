// Which goals inputs hit, and the report of it.
ghost use Rattle.std.specs.Prelude.{◌≡◌, ◌<◌, ◌^◌, IfOk, length};
ghost use Rattle.std.specs.List.{All};
ghost use Rattle.cfa.specs.Predicates.{IsPredicates};
ghost use Rattle.c_meaning.specs.Starts.{CanStart};
ghost use Rattle.measurer.specs.Measurers.{hits_of};
ghost use Rattle.command_words.specs.Request.{measuring};
ghost use Rattle.command_words.specs.Request as asks;
ghost use Rattle.command.specs.Answered.{IsTold};
ghost use Rattle.command.specs.Measure.{answers_of};
ghost use Rattle.command.specs.Reads.{reads};
ghost use Rattle.command.specs.Parts.{AreHitsOf, IsReportOf};
ghost use Rattle.command.specs.Runs.{run_of};

use crate::inputs::read_inputs;
use crate::query::plan_at;
use crate::reply::Reply;
use crate::sources::automaton;
use crate::types::Steps;
use c_meaning::Input;
use cfa::Predicates;
use command_words::Measure;
use fq_core::{Fault, Memory};
use fq_io::Files;
use goals::Answer;
use measurer::Measurer;
use path_runner::{Ends, PathRecord, RunEnd, trace_run};
use report::{measured_json, measured_text};
use std::alloc::Global;
use suite_problem::{Entry, Planned};
use suite_reduction::reduce;

/// The path of an input's run, up to its end or so many edges.
pub fn run_of(
    alloc: Global,
    entry: &Entry,
    predicates: &Predicates,
    steps: Steps,
    input: &Input,
) -> Result<PathRecord, Memory>
    requires start { CanStart entry.now.function.now input.now.words }
    requires predicates { IsPredicates entry.now.graph.now predicates.now }
    ensures { IfOk result (λ run.
        run ≡ run_of entry.now.graph.now entry.now.function.now predicates.now steps.edges
        input.now) }
{
    trace_run(
        alloc,
        entry.graph,
        entry.number,
        input,
        predicates,
        steps.edges,
    )
}

/// How the runs of inputs end, and the goals that each hits.
#[derive(Drop)]
struct Measured {
    ends: Vec<RunEnd>,
    measurer: Measurer,
}

// Runs each input from the entry. One run is recorded at a time.
fn measure_all(
    alloc: Global,
    planned: &Planned,
    ends: Ends,
    steps: Steps,
    inputs: &[Input],
) -> Result<Measured, Memory>
    requires { All (λ input. CanStart planned.now.entry.function.now input.words) inputs.now }
    ensures { IfOk result (λ made. AreHitsOf planned.now ends steps.edges inputs.now
        made.ends.items (hits_of made.measurer)) }
{
    let mut measurer = Measurer::new(alloc, &planned.plan)?;
    let mut run_ends = Vec::new(alloc);
    for input in inputs {
        let run = run_of(alloc, &planned.entry, &planned.predicates, steps, input)?;
        measurer.add(&planned.plan, &run, ends)?;
        run_ends.push(run.end)?;
    }
    Ok(Measured {
        ends: run_ends,
        measurer,
    })
}

// The answer of each goal.
fn answers(alloc: Global, measurer: &Measurer, count: u32) -> Result<Vec<Answer>, Memory>
    ensures { IfOk result (λ answers. answers.items ≡ answers_of (hits_of measurer.now) count) }
{
    let mut answers = Vec::new(alloc);
    for place in 0..count {
        let answer = match measurer.first(place + 1) {
            Some(input) => Answer::Covered { input },
            None => Answer::Missed,
        };
        answers.push(answer)?;
    }
    Ok(answers)
}

/// The report of measuring these inputs, each run being cut after so many edges, where these ends count.
pub fn report(
    alloc: Global,
    planned: &Planned,
    ends: Ends,
    steps: Steps,
    json: bool,
    inputs: &[Input],
) -> Result<Vec<u8>, Memory>
    requires few { length inputs.now < 2 ^ 32 }
    requires start { All (λ input. CanStart planned.now.entry.function.now input.words) inputs.now }
    ensures { IfOk result (λ text. IsReportOf planned.now ends steps.edges json
        inputs.now text.items) }
{
    let made = measure_all(alloc, planned, ends, steps, inputs)?;
    let plan = &planned.plan;
    let graph = planned.entry.graph;
    let entry = planned.entry.number;
    let count = plan.goals.len() as u32;
    let answers = answers(alloc, &made.measurer, count)?;
    let kept = reduce(alloc, made.measurer.hits())?;
    if json {
        measured_json(alloc, graph, plan, entry, &made.ends, &answers, &kept, ends)
    } else {
        measured_text(alloc, graph, plan, entry, &made.ends, &answers, &kept, ends)
    }
}

/// What is due of `measure`.
pub fn measure<F: Files>(alloc: Global, request: &Measure, files: &mut F) -> Result<Reply, Fault>
    ensures { IsTold (reads F.Files files.old files.new)
        (asks.measure (measuring request.now)) result }
{
    let automaton = automaton(alloc, files, &request.sources)?;
    let planned = plan_at(alloc, &automaton, request.entry, request.query.as_bytes())?;
    let inputs = read_inputs(alloc, files, request.inputs, &planned.entry)?;
    let steps = Steps {
        edges: request.steps as u64,
    };
    let text = report(alloc, &planned, request.ends, steps, request.json, &inputs)?;
    Ok(Reply::Answer {
        text,
        left_open: false,
    })
}
