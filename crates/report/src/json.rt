// What was measured, as JSON.
ghost use Rattle.std.specs.Prelude.{◌≡◌, IfOk, length, map};
ghost use Rattle.serde_json.specs.Data.{number, string};
ghost use Rattle.serde_json.specs.Find.{of_integer};
ghost use Rattle.serde_json.specs.View.{view};
ghost use Rattle.c_values.specs.Kind.{number_of};
ghost use Rattle.report.specs.Ends.{end_name};
ghost use Rattle.report.specs.Json.{count_data, end_data, goal_data, goals_data, measured_data, measured_json, text_data};
ghost use Rattle.report.specs.Letters.{word_text};

use crate::counts::covered_count;
use crate::ends::{end_name, result_kind, value_with_kind};
use crate::letters::push_word;
use crate::strings::text_value;
use c_values::Kind;
use cfa::Graph;
use fq_core::Memory;
use goals::{Answer, Goal, Plan};
use path_runner::{Ends, RunEnd};
use serde_json::{Value, json};
use std::alloc::{AllocError, Global};

// The number that a word stands for in a kind.
fn word_value(kind: Kind, word: u64) -> Value
    ensures { view result ≡ number (of_integer (number_of kind word)) }
{
    if kind.signed {
        Value::from(word.cast_signed())
    } else {
        Value::from(word)
    }
}

// How a run ended, and the value that it returned where there is one.
fn end_value(alloc: Global, kind: Option<Kind>, end: &RunEnd) -> Result<Value, AllocError>
    ensures { IfOk result (λ value. view value ≡ end_data kind end.now) }
{
    let name = end_name(end);
    match value_with_kind(kind, end) {
        Some((kind, word)) => json!(in alloc; {"end": name, "value": word_value(kind, word)}),
        None => json!(in alloc; {"end": name}),
    }
}

fn ends_value(alloc: Global, kind: Option<Kind>, ends: &[RunEnd]) -> Result<Vec<Value>, AllocError>
    ensures { IfOk result (λ values. map view values.items ≡ map (end_data kind) ends.now) }
{
    let mut values = Vec::new(alloc);
    for end in ends {
        values.push(end_value(alloc, kind, end)?)?;
    }
    Ok(values)
}

// A goal's text with its answer.
fn answered_value(alloc: Global, answer: Answer, text: &[u8]) -> Result<Value, AllocError>
    ensures { IfOk result (λ value. view value ≡ goal_data answer text.now) }
{
    let text = text_value(alloc, text)?;
    match answer {
        Answer::Covered { input } => {
            json!(in alloc; {"answer": "covered", "input": input, "text": text})
        }
        Answer::Missed => json!(in alloc; {"answer": "missed", "text": text}),
        Answer::Refuted => json!(in alloc; {"answer": "refuted", "text": text}),
        Answer::Undecided => json!(in alloc; {"answer": "undecided", "text": text}),
    }
}

fn goal_value(
    alloc: Global,
    graph: &Graph,
    plan: &Plan,
    answer: Answer,
    goal: &Goal,
) -> Result<Value, AllocError>
    ensures { IfOk result (λ value. view value ≡ goal_data answer (word_text graph.now plan.now goal.now.word)) }
{
    let mut text = Vec::new(alloc);
    push_word(&mut text, graph, plan, goal.word())?;
    answered_value(alloc, answer, &text)
}

/// Each goal of a plan with its answer.
pub fn goals_value(
    alloc: Global,
    graph: &Graph,
    plan: &Plan,
    answers: &[Answer],
) -> Result<Vec<Value>, AllocError>
    requires { length answers.now ≡ length plan.now.goals }
    ensures { IfOk result (λ values. map view values.items ≡ goals_data graph.now plan.now answers.now plan.now.goals) }
{
    let goals = plan.goals.as_slice();
    let mut values = Vec::new(alloc);
    for place in 0..goals.len() {
        values.push(goal_value(alloc, graph, plan, answers[place], &goals[place])?)?;
    }
    Ok(values)
}

/// These numbers.
pub fn counts_value(alloc: Global, counts: &[u32]) -> Result<Vec<Value>, AllocError>
    ensures { IfOk result (λ values. map view values.items ≡ map count_data counts.now) }
{
    let mut values = Vec::new(alloc);
    for count in counts {
        values.push(Value::from(*count))?;
    }
    Ok(values)
}

fn measured_value(
    alloc: Global,
    graph: &Graph,
    plan: &Plan,
    entry: u32,
    results: &[RunEnd],
    answers: &[Answer],
    kept: &[u32],
    ends: Ends,
) -> Result<Value, AllocError>
    requires { length answers.now ≡ length plan.now.goals }
    ensures { IfOk result (λ value. view value ≡ measured_data graph.now plan.now entry results.now answers.now kept.now ends) }
{
    let covered = Value::from(covered_count(answers));
    let goals = Value::from(goals_value(alloc, graph, plan, answers)?);
    let inputs = Value::from(ends_value(alloc, result_kind(graph, entry), results)?);
    let suite = Value::from(counts_value(alloc, kept)?);
    match ends {
        Ends::Returned => {
            json!(in alloc; {"covered": covered, "goals": goals, "inputs": inputs, "suite": suite})
        }
        Ends::Trapped => {
            json!(in alloc; {"covered": covered, "ends": "trapped", "goals": goals, "inputs": inputs, "suite": suite})
        }
        Ends::Any => {
            json!(in alloc; {"covered": covered, "ends": "any", "goals": goals, "inputs": inputs, "suite": suite})
        }
    }
}

/// What was measured of the goals of a plan over a graph, with inputs to the function of this number, as one line of JSON:
/// how many goals are `covered`; the `ends` that count, where others than returns do; the `goals`, each with its `answer`, the `input` that covers it and its `text`; the
/// `inputs`, each with the `end` of its run and the `value` that it returned; and the inputs that are kept in the reduced
/// `suite`. There is one answer for each goal.
pub fn measured_json(
    alloc: Global,
    graph: &Graph,
    plan: &Plan,
    entry: u32,
    results: &[RunEnd],
    answers: &[Answer],
    kept: &[u32],
    ends: Ends,
) -> Result<Vec<u8>, Memory>
    requires { length answers.now ≡ length plan.now.goals }
    ensures { IfOk result (λ text. text.items ≡ measured_json graph.now plan.now entry results.now answers.now kept.now ends) }
{
    let value = measured_value(alloc, graph, plan, entry, results, answers, kept, ends)?;
    let mut text = value.to_vec(alloc)?;
    text.extend_from_slice(b"\n")?;
    Ok(text)
}
