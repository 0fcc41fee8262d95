// The lines of the texts.
ghost use Rattle.std.specs.Prelude.{◌≡◌, ◌+◌, ◌<◌, ◌^◌, ◌++◌, OnOk, length};
ghost use Rattle.report.specs.Texts.{answer_text, ends_text, goal_line, goal_lines, head_line, input_line, input_lines, suite_line, total_line};

use crate::ends::push_end;
use crate::letters::push_word;
use crate::numbers::{push_number, push_spaced};
use c_values::Kind;
use cfa::Graph;
use goals::{Answer, Goal, Plan};
use path_runner::{Ends, RunEnd};
use std::alloc::AllocError;

/// The ends that count, as a line tells them.
pub fn ends_text(ends: Ends) -> &'static [u8]
    ensures { result.now ≡ ends_text ends }
{
    match ends {
        Ends::Returned => b"",
        Ends::Trapped => b" ends trapped",
        Ends::Any => b" ends any",
    }
}

/// Appends the line with the numbers of goals and of inputs, and the ends that count.
pub fn push_head(
    text: &mut Vec<u8>,
    goals: usize,
    inputs: usize,
    ends: Ends,
) -> Result<(), AllocError>
    ensures { OnOk result (text.new.items ≡ text.old.items ++ head_line goals inputs ends) }
{
    text.extend_from_slice(b"goals ")?;
    push_number(text, goals)?;
    text.extend_from_slice(b" inputs ")?;
    push_number(text, inputs)?;
    text.extend_from_slice(ends_text(ends))?;
    text.extend_from_slice(b"\n")?;
    Ok(())
}

/// Appends how the run of an input ended.
pub fn push_input(
    text: &mut Vec<u8>,
    kind: Option<Kind>,
    number: usize,
    end: &RunEnd,
) -> Result<(), AllocError>
    ensures { OnOk result (text.new.items ≡ text.old.items ++ input_line kind number end.now) }
{
    text.extend_from_slice(b"input ")?;
    push_number(text, number)?;
    text.extend_from_slice(b" ")?;
    push_end(text, kind, end)?;
    text.extend_from_slice(b"\n")?;
    Ok(())
}

/// Appends a line for each input.
pub fn push_inputs(
    text: &mut Vec<u8>,
    kind: Option<Kind>,
    ends: &[RunEnd],
) -> Result<(), AllocError>
    ensures { OnOk result (text.new.items ≡ text.old.items ++ input_lines kind 1 ends.now) }
{
    for place in 0..ends.len() {
        push_input(text, kind, place + 1, &ends[place])?;
    }
    Ok(())
}

fn push_answer(text: &mut Vec<u8>, answer: Answer) -> Result<(), AllocError>
    ensures { OnOk result (text.new.items ≡ text.old.items ++ answer_text answer) }
{
    match answer {
        Answer::Covered { input } => {
            text.extend_from_slice(b"covered ")?;
            push_number(text, input)?;
            Ok(())
        }
        Answer::Missed => text.extend_from_slice(b"missed"),
        Answer::Refuted => text.extend_from_slice(b"refuted"),
        Answer::Undecided => text.extend_from_slice(b"undecided"),
    }
}

fn push_goal(
    text: &mut Vec<u8>,
    graph: &Graph,
    plan: &Plan,
    number: usize,
    answer: Answer,
    goal: &Goal,
) -> Result<(), AllocError>
    ensures { OnOk result (text.new.items ≡ text.old.items ++ goal_line graph.now plan.now number answer goal.now) }
{
    text.extend_from_slice(b"goal ")?;
    push_number(text, number)?;
    text.extend_from_slice(b" ")?;
    push_answer(text, answer)?;
    text.extend_from_slice(b" ")?;
    push_word(text, graph, plan, goal.word())?;
    text.extend_from_slice(b"\n")?;
    Ok(())
}

/// Appends a line for each goal.
pub fn push_goals(
    text: &mut Vec<u8>,
    graph: &Graph,
    plan: &Plan,
    answers: &[Answer],
) -> Result<(), AllocError>
    requires { length answers.now ≡ length plan.now.goals }
    ensures { OnOk result (text.new.items ≡ text.old.items ++ goal_lines graph.now plan.now 1 answers.now plan.now.goals) }
{
    let goals = plan.goals.as_slice();
    for place in 0..goals.len() {
        push_goal(text, graph, plan, place + 1, answers[place], &goals[place])?;
    }
    Ok(())
}

/// Appends the line with the inputs that are kept.
pub fn push_suite(text: &mut Vec<u8>, kept: &[u32]) -> Result<(), AllocError>
    ensures { OnOk result (text.new.items ≡ text.old.items ++ suite_line kept.now) }
{
    text.extend_from_slice(b"suite")?;
    push_spaced(text, kept)?;
    text.extend_from_slice(b"\n")?;
    Ok(())
}

/// Appends the line with the number of goals that are covered.
pub fn push_total(text: &mut Vec<u8>, covered: usize, goals: usize) -> Result<(), AllocError>
    ensures { OnOk result (text.new.items ≡ text.old.items ++ total_line covered goals) }
{
    text.extend_from_slice(b"covered ")?;
    push_number(text, covered)?;
    text.extend_from_slice(b" of ")?;
    push_number(text, goals)?;
    text.extend_from_slice(b"\n")?;
    Ok(())
}
