// The lines of one goal, and of a sample.
ghost use Rattle.std.specs.Prelude.{◌≡◌, IfOk, length};
ghost use Rattle.input_text.specs.Laws.{HasWords};
ghost use Rattle.report.specs.Generated.{proved_text, refuted_text, sample_text, undecided_text};
ghost use Rattle.report.specs.Made.{parameter_kinds};

use crate::counts::push_counts;
use crate::generated::push_bounds;
use crate::lines::ends_text;
use crate::made::{parameter_kinds, push_made};
use crate::numbers::push_number;
use c_meaning::Input;
use c_values::Kind;
use cfa::Graph;
use fq_core::Memory;
use goals::{Answer, Plan};
use path_runner::Ends;
use std::alloc::Global;
use unwinder_reach::reached::Bounds;

/// The line of a goal of this number that an input to the function of the number `entry` covers: its arguments, and the
/// answers that its run takes where there are any. The input has one word for each parameter.
pub fn proved_text(
    alloc: Global,
    graph: &Graph,
    entry: u32,
    number: u32,
    input: &Input,
    taken: &[(Kind, u64)],
) -> Result<Vec<u8>, Memory>
    requires { HasWords (length (parameter_kinds graph.now entry)) input.now }
    ensures { IfOk result (λ text. text.items ≡ proved_text graph.now entry number input.now taken.now) }
{
    let mut text = Vec::from_slice(alloc, b"goal ")?;
    push_number(&mut text, number)?;
    text.extend_from_slice(b" covered")?;
    push_made(&mut text, parameter_kinds(graph, entry), input, taken)?;
    text.extend_from_slice(b"\n")?;
    Ok(text)
}

/// The line of a goal of this number that is undecided.
pub fn undecided_text(alloc: Global, number: u32) -> Result<Vec<u8>, Memory>
    ensures { IfOk result (λ text. text.items ≡ undecided_text number) }
{
    let mut text = Vec::from_slice(alloc, b"goal ")?;
    push_number(&mut text, number)?;
    text.extend_from_slice(b" undecided\n")?;
    Ok(text)
}

/// The line of a goal of this number that is refuted within these bounds on a loop's turns, on frames and on answers, and
/// the ends that count where others than returns do.
pub fn refuted_text(
    alloc: Global,
    number: u32,
    bounds: Bounds,
    ends: Ends,
) -> Result<Vec<u8>, Memory>
    ensures { IfOk result (λ text. text.items ≡ refuted_text number bounds ends) }
{
    let mut text = Vec::from_slice(alloc, b"goal ")?;
    push_number(&mut text, number)?;
    text.extend_from_slice(b" refuted")?;
    push_bounds(&mut text, bounds)?;
    text.extend_from_slice(ends_text(ends))?;
    text.extend_from_slice(b"\n")?;
    Ok(text)
}

/// The line of the program that is made from a number, with its graph and the plan of its query: how many edges and goals
/// there are, and how many goals are covered, refuted and undecided.
pub fn sample_text(
    alloc: Global,
    number: u32,
    graph: &Graph,
    plan: &Plan,
    answers: &[Answer],
) -> Result<Vec<u8>, Memory>
    ensures { IfOk result (λ text. text.items ≡ sample_text number graph.now plan.now answers.now) }
{
    let mut text = Vec::from_slice(alloc, b"sample ")?;
    push_number(&mut text, number)?;
    text.extend_from_slice(b" edges ")?;
    push_number(&mut text, graph.edges().len())?;
    text.extend_from_slice(b" goals ")?;
    push_number(&mut text, plan.goals.len())?;
    text.extend_from_slice(b" ")?;
    push_counts(&mut text, answers)?;
    text.extend_from_slice(b"\n")?;
    Ok(text)
}
