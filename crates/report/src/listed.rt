// The texts of goals, of runs and of ends.
ghost use Rattle.std.specs.Prelude.{◌≡◌, ◌+◌, ◌++◌, IfOk, OnOk, codes, length};
ghost use Rattle.std.specs.Fmt.{decimal};
ghost use Rattle.report.specs.Letters.{word_text};
ghost use Rattle.report.specs.Texts.{goals_text, inputs_text, listed_lines, run_line, run_lines, runs_text};

use crate::ends::{push_end, result_kind};
use crate::letters::push_word;
use crate::lines::push_inputs;
use crate::numbers::{push_number, push_spaced};
use c_values::Kind;
use cfa::Graph;
use containers::Vector;
use fq_core::Memory;
use goals::{Goal, Plan};
use path_runner::RunEnd;
use std::alloc::{AllocError, Global};

fn push_listed(
    text: &mut Vec<u8>,
    graph: &Graph,
    plan: &Plan,
    number: usize,
    goal: &Goal,
) -> Result<(), AllocError>
    ensures { OnOk result (text.new.items ≡ text.old.items ++ (codes "goal " ++ decimal number ++ codes " " ++ word_text graph.now plan.now goal.now.word ++ codes "\n")) }
{
    text.extend_from_slice(b"goal ")?;
    push_number(text, number)?;
    text.extend_from_slice(b" ")?;
    push_word(text, graph, plan, goal.word())?;
    text.extend_from_slice(b"\n")?;
    Ok(())
}

fn push_list(text: &mut Vec<u8>, graph: &Graph, plan: &Plan) -> Result<(), AllocError>
    ensures { OnOk result (text.new.items ≡ text.old.items ++ listed_lines graph.now plan.now 1 plan.now.goals) }
{
    let goals = plan.goals.as_slice();
    for place in 0..goals.len() {
        push_listed(text, graph, plan, place + 1, &goals[place])?;
    }
    Ok(())
}

/// The goals of a plan over a graph: how many there are, and each with its number and its text.
pub fn goals_text(alloc: Global, graph: &Graph, plan: &Plan) -> Result<Vec<u8>, Memory>
    ensures { IfOk result (λ text. text.items ≡ goals_text graph.now plan.now) }
{
    let mut text = Vec::from_slice(alloc, b"goals ")?;
    push_number(&mut text, plan.goals.len())?;
    text.extend_from_slice(b"\n")?;
    push_list(&mut text, graph, plan)?;
    Ok(text)
}

fn push_run(
    text: &mut Vec<u8>,
    kind: Option<Kind>,
    number: usize,
    end: &RunEnd,
    edges: &[u32],
) -> Result<(), AllocError>
    ensures { OnOk result (text.new.items ≡ text.old.items ++ run_line kind number end.now edges.now) }
{
    text.extend_from_slice(b"input ")?;
    push_number(text, number)?;
    text.extend_from_slice(b" ")?;
    push_end(text, kind, end)?;
    text.extend_from_slice(b" edges")?;
    push_spaced(text, edges)?;
    text.extend_from_slice(b"\n")?;
    Ok(())
}

fn push_runs(
    text: &mut Vec<u8>,
    kind: Option<Kind>,
    runs: &[(RunEnd, Vector<u32>)],
) -> Result<(), AllocError>
    ensures { OnOk result (text.new.items ≡ text.old.items ++ run_lines kind 1 runs.now) }
{
    for place in 0..runs.len() {
        let run = &runs[place];
        push_run(text, kind, place + 1, &run.0, run.1.as_slice())?;
    }
    Ok(())
}

/// The runs of inputs to the function of this number: for each how it ended, and the edges that it took.
pub fn runs_text(
    alloc: Global,
    graph: &Graph,
    entry: u32,
    runs: &[(RunEnd, Vector<u32>)],
) -> Result<Vec<u8>, Memory>
    ensures { IfOk result (λ text. text.items ≡ runs_text graph.now entry runs.now) }
{
    let mut text = Vec::new(alloc);
    push_runs(&mut text, result_kind(graph, entry), runs)?;
    Ok(text)
}

/// How the runs of inputs to the function of this number end: a line for each.
pub fn inputs_text(
    alloc: Global,
    graph: &Graph,
    entry: u32,
    ends: &[RunEnd],
) -> Result<Vec<u8>, Memory>
    ensures { IfOk result (λ text. text.items ≡ inputs_text graph.now entry ends.now) }
{
    let mut text = Vec::new(alloc);
    push_inputs(&mut text, result_kind(graph, entry), ends)?;
    Ok(text)
}
