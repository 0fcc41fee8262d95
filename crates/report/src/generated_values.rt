// What was found by generation, as JSON.
ghost use Rattle.std.specs.Prelude.{◌≡◌, IfOk, codes, length, map};
ghost use Rattle.std.specs.List.{All};
ghost use Rattle.serde_json.specs.Data.{member, object, string};
ghost use Rattle.serde_json.specs.View.{view};
ghost use Rattle.input_text.specs.Laws.{HasWords};
ghost use Rattle.report.specs.GeneratedJson.{bounds_data, found_data, found_object, generated_json, inputs_data, later_members};
ghost use Rattle.report.specs.Made.{parameter_kinds};

use crate::counts::{covered_count, refuted_count, undecided_count};
use crate::json::{counts_value, goals_value};
use crate::made::parameter_kinds;
use c_meaning::Input;
use c_values::Kind;
use cfa::Graph;
use containers::Vector;
use fq_core::Memory;
use goals::{Answer, Plan};
use input_text::input_json;
use path_runner::Ends;
use serde_json::{Value, json};
use std::alloc::{AllocError, Global};
use suite_problem::Generated;
use unwinder_reach::reached::Bounds;

fn bounds_value(alloc: Global, bounds: Bounds, budget: u64) -> Result<Value, AllocError>
    ensures { IfOk result (λ value. view value ≡ bounds_data bounds budget) }
{
    json!(in alloc; {"answers": bounds.answers, "budget": budget, "frames": bounds.frames, "turns": bounds.turns})
}

fn inputs_value(
    alloc: Global,
    kinds: &[Kind],
    inputs: &[Input],
    taken: &[Vector<(Kind, u64)>],
) -> Result<Vec<Value>, Memory>
    requires words { All (HasWords (length kinds.now)) inputs.now }
    requires taken { length taken.now ≡ length inputs.now }
    ensures { IfOk result (λ values. map view values.items ≡ inputs_data kinds.now inputs.now taken.now) }
{
    let mut values = Vec::new(alloc);
    for place in 0..inputs.len() {
        values.push(input_json(alloc, &inputs[place], kinds, taken[place].as_slice())?)?;
    }
    Ok(values)
}

// What was found, key by key, with this word for the ends that count.
fn counted_object(
    alloc: Global,
    word: &str,
    bounds: Value,
    covered: Value,
    goals: Value,
    inputs: Value,
    refuted: Value,
    suite: Value,
    undecided: Value,
) -> Result<Value, AllocError>
    ensures { IfOk result (λ value. view value ≡ object (member (codes "bounds") (view bounds) (member (codes "covered") (view covered) (member (codes "ends") (string word.now) (later_members (view goals) (view inputs) (view refuted) (view suite) (view undecided)))))) }
{
    json!(in alloc; {"bounds": bounds, "covered": covered, "ends": word, "goals": goals, "inputs": inputs, "refuted": refuted, "suite": suite, "undecided": undecided})
}

// What was found, key by key.
fn found_object(
    alloc: Global,
    ends: Ends,
    bounds: Value,
    covered: Value,
    goals: Value,
    inputs: Value,
    refuted: Value,
    suite: Value,
    undecided: Value,
) -> Result<Value, AllocError>
    ensures { IfOk result (λ value. view value ≡ found_object ends (view bounds) (view covered) (view goals) (view inputs) (view refuted) (view suite) (view undecided)) }
{
    let word = match ends {
        Ends::Returned => {
            return json!(in alloc; {"bounds": bounds, "covered": covered, "goals": goals, "inputs": inputs, "refuted": refuted, "suite": suite, "undecided": undecided});
        }
        Ends::Trapped => "trapped",
        Ends::Any => "any",
    };
    counted_object(
        alloc, word, bounds, covered, goals, inputs, refuted, suite, undecided,
    )
}

// What was found of the goals of a plan, beside these bounds and inputs.
fn found_value(
    alloc: Global,
    graph: &Graph,
    plan: &Plan,
    bounds: Value,
    inputs: Vec<Value>,
    answers: &[Answer],
    kept: &[u32],
    ends: Ends,
) -> Result<Value, AllocError>
    requires { length answers.now ≡ length plan.now.goals }
    ensures { IfOk result (λ value. view value ≡ found_data graph.now plan.now (view bounds) (map view inputs.items) answers.now kept.now ends) }
{
    let covered = Value::from(covered_count(answers));
    let goals = Value::from(goals_value(alloc, graph, plan, answers)?);
    let inputs = Value::from(inputs);
    let refuted = Value::from(refuted_count(answers));
    let suite = Value::from(counts_value(alloc, kept)?);
    let undecided = Value::from(undecided_count(answers));
    found_object(
        alloc, ends, bounds, covered, goals, inputs, refuted, suite, undecided,
    )
}

/// What was found of the goals of a plan over a graph by making inputs to the function of this number, as one line of JSON:
/// the `bounds` on a loop's `turns`, on `frames` and on `answers` with the `budget` of the search; how many goals are
/// `covered`; the `ends` that count, where others than returns do; the `goals`, each with its `answer`, the `input` that
/// covers it and its `text`; the `inputs`, each with the `answers` that its run takes and its `args`; how many goals are
/// `refuted`; the inputs that are kept in the reduced `suite`; and how many goals are `undecided`. There is one answer for
/// each goal, one word in an input for each parameter, and one list in `taken` for each input.
pub fn generated_json(
    alloc: Global,
    graph: &Graph,
    plan: &Plan,
    entry: u32,
    made: &Generated,
    kept: &[u32],
    bounds: Bounds,
    budget: u64,
    ends: Ends,
) -> Result<Vec<u8>, Memory>
    requires words { All (HasWords (length (parameter_kinds graph.now entry))) made.now.inputs }
    requires taken { length made.now.taken ≡ length made.now.inputs }
    requires answers { length made.now.answers ≡ length plan.now.goals }
    ensures { IfOk result (λ text. text.items ≡ generated_json graph.now plan.now entry made.now kept.now bounds budget ends) }
{
    let bounds = bounds_value(alloc, bounds, budget)?;
    let inputs = inputs_value(
        alloc,
        parameter_kinds(graph, entry),
        &made.inputs,
        &made.taken,
    )?;
    let value = found_value(
        alloc,
        graph,
        plan,
        bounds,
        inputs,
        &made.answers,
        kept,
        ends,
    )?;
    let mut text = value.to_vec(alloc)?;
    text.extend_from_slice(b"\n")?;
    Ok(text)
}
