// The text of what was measured.
ghost use Rattle.std.specs.Prelude.{◌≡◌, IfOk, length};
ghost use Rattle.report.specs.Texts.{measured_text};

use crate::counts::covered_count;
use crate::ends::result_kind;
use crate::lines::{push_goals, push_head, push_inputs, push_suite, push_total};
use cfa::Graph;
use fq_core::Memory;
use goals::{Answer, Plan};
use path_runner::{Ends, RunEnd};
use std::alloc::Global;

/// The text of what was measured of the goals of a plan over a graph, with inputs to the function of this number: a line
/// with how many goals and inputs there are, and the ends that count where others than returns do; for each input how its run ended; for each goal its answer and its text; the
/// numbers of the inputs that are kept in the reduced suite; and how many goals are covered. There is one answer for each
/// goal.
pub fn measured_text(
    alloc: Global,
    graph: &Graph,
    plan: &Plan,
    entry: u32,
    results: &[RunEnd],
    answers: &[Answer],
    kept: &[u32],
    ends: Ends,
) -> Result<Vec<u8>, Memory>
    requires { length answers.now ≡ length plan.now.goals }
    ensures { IfOk result (λ text. text.items ≡ measured_text graph.now plan.now entry results.now answers.now kept.now ends) }
{
    let mut text = Vec::new(alloc);
    let goals = plan.goals.len();
    push_head(&mut text, goals, results.len(), ends)?;
    push_inputs(&mut text, result_kind(graph, entry), results)?;
    push_goals(&mut text, graph, plan, answers)?;
    push_suite(&mut text, kept)?;
    push_total(&mut text, covered_count(answers), goals)?;
    Ok(text)
}
