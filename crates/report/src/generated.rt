// The text of generation.
ghost use Rattle.std.specs.Prelude.{◌≡◌, ◌++◌, IfOk, OnOk, length};
ghost use Rattle.std.specs.List.{All};
ghost use Rattle.input_text.specs.Laws.{HasWords};
ghost use Rattle.report.specs.Generated.{bounds_text, generated_head, generated_text, generated_total};
ghost use Rattle.report.specs.Made.{parameter_kinds};

use crate::counts::push_counts;
use crate::lines::{ends_text, push_goals, push_suite};
use crate::made::{parameter_kinds, push_made_lines};
use crate::numbers::push_number;
use cfa::Graph;
use fq_core::Memory;
use goals::{Answer, Plan};
use path_runner::Ends;
use std::alloc::{AllocError, Global};
use suite_problem::Generated;
use unwinder_reach::reached::Bounds;

/// Appends the bounds of an unwinding.
pub fn push_bounds(text: &mut Vec<u8>, bounds: Bounds) -> Result<(), AllocError>
    ensures { OnOk result (text.new.items ≡ text.old.items ++ bounds_text bounds) }
{
    text.extend_from_slice(b" turns ")?;
    push_number(text, bounds.turns)?;
    text.extend_from_slice(b" frames ")?;
    push_number(text, bounds.frames)?;
    text.extend_from_slice(b" answers ")?;
    push_number(text, bounds.answers)?;
    Ok(())
}

fn push_generated_head(
    text: &mut Vec<u8>,
    goals: usize,
    bounds: Bounds,
    budget: u64,
    ends: Ends,
) -> Result<(), AllocError>
    ensures { OnOk result (text.new.items ≡ text.old.items ++ generated_head goals bounds budget ends) }
{
    text.extend_from_slice(b"goals ")?;
    push_number(text, goals)?;
    push_bounds(text, bounds)?;
    text.extend_from_slice(b" budget ")?;
    push_number(text, budget)?;
    text.extend_from_slice(ends_text(ends))?;
    text.extend_from_slice(b"\n")?;
    Ok(())
}

fn push_generated_total(
    text: &mut Vec<u8>,
    answers: &[Answer],
    goals: usize,
) -> Result<(), AllocError>
    ensures { OnOk result (text.new.items ≡ text.old.items ++ generated_total answers.now goals) }
{
    push_counts(text, answers)?;
    text.extend_from_slice(b" of ")?;
    push_number(text, goals)?;
    text.extend_from_slice(b"\n")?;
    Ok(())
}

/// The text of what was found of the goals of a plan over a graph by making inputs to the function of this number: a line
/// with how many goals there are, the bounds on a loop's turns, on frames and on answers, the budget of the search, and the
/// ends that count where others than returns do; for each input its arguments, and the answers that its run takes where
/// there are any; for each goal its answer and its text; the numbers of the inputs that are kept in the reduced suite; and
/// how many goals are covered, refuted and undecided. There is one answer for each goal, one word in an input for each
/// parameter, and one list in `taken` for each input.
pub fn generated_text(
    alloc: Global,
    graph: &Graph,
    plan: &Plan,
    entry: u32,
    made: &Generated,
    kept: &[u32],
    bounds: Bounds,
    budget: u64,
    ends: Ends,
) -> Result<Vec<u8>, Memory>
    requires words { All (HasWords (length (parameter_kinds graph.now entry))) made.now.inputs }
    requires taken { length made.now.taken ≡ length made.now.inputs }
    requires answers { length made.now.answers ≡ length plan.now.goals }
    ensures { IfOk result (λ text. text.items ≡ generated_text graph.now plan.now entry made.now kept.now bounds budget ends) }
{
    let mut text = Vec::new(alloc);
    let goals = plan.goals.len();
    push_generated_head(&mut text, goals, bounds, budget, ends)?;
    push_made_lines(
        &mut text,
        parameter_kinds(graph, entry),
        &made.inputs,
        &made.taken,
    )?;
    push_goals(&mut text, graph, plan, &made.answers)?;
    push_suite(&mut text, kept)?;
    push_generated_total(&mut text, &made.answers, goals)?;
    Ok(text)
}
