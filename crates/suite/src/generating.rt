// Generation: each goal of a plan answered, with inputs that are made.
ghost use Rattle.std.specs.Prelude.{◌≡◌, ◌+◌, ◌<◌, ◌^◌, IfErr, IfOk, List, OnOk, length};
ghost use Rattle.fq_core.specs.Refusals.{IfRefused};
ghost use Rattle.goals.specs.GoalForm.{GoalForm};
ghost use Rattle.measurer.specs.Measurers.{IsMadeFor as MeasuresFor};
ghost use Rattle.suite.specs.Generated.{Shown, seen_also};
ghost use Rattle.suite.specs.Progress.{AreSmall, IsSizeFault, so_far};
ghost use Rattle.suite.specs.Seeking.{AddsAs, AreAnsweredOf, AreOpenWhereShort, CannotGenerate, IsGenerationOf, IsGoalOf, IsMadeAs, IsNextAs};

use crate::decided::Decided;
use crate::deciding::{decide_beside, fill_first};
use crate::first_round::{Round, try_all};
use crate::making::{Making, nothing_made};
use crate::sought::{Sought, too_large, unwinding};
use c_meaning::Input;
use fq_core::{Fault, Memory};
use goal_formula::is_goal_too_large;
use goals::{Answer, Plan};
use search::Watch;
use std::alloc::Global;
use suite_problem::{Generated, Given, Goal};

/// Tests the sizes of all goals over so many pairs of node and context.
fn test_sizes(alloc: Global, plan: &Plan, pairs: u32) -> Result<(), Fault>
    requires { length plan.now.goals < 2 ^ 32 }
    ensures small { OnOk result (AreSmall plan.now pairs) }
    ensures refused { IfErr result (IsSizeFault plan.now pairs) }
{
    for place in 0..plan.goals.len() {
        if is_goal_too_large(alloc, plan, place as u32 + 1, pairs)? {
            return Err(too_large());
        }
    }
    Ok(())
}

/// Adds an input that was made for a goal: it is replayed and measured.
fn add_input(
    alloc: Global,
    sought: &Sought,
    input: Input,
    making: &mut Making,
) -> Result<(), Memory>
    requires input { (form : GoalForm) × IsMadeAs sought.now.goal form input }
    requires plan { MeasuresFor sought.now.goal.given.now.planned.plan making.old.measurer }
    ensures plan { MeasuresFor sought.now.goal.given.now.planned.plan making.new.measurer }
    ensures added { OnOk result ((form : GoalForm) → IsMadeAs sought.now.goal form input
        → AddsAs sought.now.goal form input (so_far making.old) (so_far making.new)) }
{
    let given = sought.goal().given;
    let run = sought.run_of(alloc, &input)?;
    making.measurer.add(&given.planned.plan, &run, given.ends)?;
    making.inputs.push(input)?;
    making.taken.push(run.taken)?;
    Ok(())
}

/// The answer of a goal: the first input so far that hits it covers it, and else it is decided. An input that is made for it is
/// added, and where it stays undecided the watch is shown its search.
fn next_answer<W: Watch>(
    alloc: Global,
    sought: &mut Sought,
    budget: u64,
    watch: &mut W,
    making: &mut Making,
) -> Result<Answer, Memory>
    requires plan { MeasuresFor sought.old.goal.given.now.planned.plan making.old.measurer }
    ensures same { sought.new ≡ sought.old }
    ensures plan { MeasuresFor sought.old.goal.given.now.planned.plan making.new.measurer }
    ensures next { IfOk result (λ answer. (form : GoalForm) → IsGoalOf sought.old.goal form
        → IsNextAs sought.old.goal form budget (so_far making.old) (so_far making.new)
        (W.seen watch.old) (W.seen watch.new) answer) }
{
    let number = sought.goal().number;
    if let Some(input) = making.measurer.first(number) {
        return Ok(Answer::Covered { input });
    }
    if sought.is_refuted() {
        return Ok(Answer::Refuted);
    }
    match decide_beside(alloc, sought, budget)? {
        Decided::Covered(input) => {
            let before = making.inputs.len();
            if before >= u32::MAX as usize {
                return Err(Memory);
            }
            add_input(alloc, sought, input, making)?;
            Ok(Answer::Covered {
                input: before as u32 + 1,
            })
        }
        Decided::Refuted {
            formula: _formula,
            derivation: _derivation,
        } => Ok(Answer::Refuted),
        Decided::Undecided { formula, history } => {
            watch.shown(number, &formula.formula, &history)?;
            Ok(Answer::Undecided)
        }
    }
}

/// What was made in all.
fn generated(making: Making) -> Generated
    ensures { result ≡ so_far making }
{
    let Making {
        measurer,
        answers,
        inputs,
        taken,
    } = making;
    Generated {
        answers,
        inputs,
        taken,
        hits: measurer.into_hits(),
    }
}

/// Answers all goals over an unwinding, after the rounds in which each is tried.
fn all_answered<W: Watch>(
    alloc: Global,
    sought: &mut Sought,
    budget: u64,
    watch: &mut W,
) -> Result<Generated, Memory>
    requires { AreSmall sought.old.goal.given.now.planned.plan sought.old.pairs }
    ensures count { IfOk result (λ made.
        length made.answers ≡ length sought.old.goal.given.now.planned.plan.goals) }
    ensures answered { IfOk result (λ made. AreAnsweredOf sought.old.goal.given.now budget made
        (W.seen watch.old) (W.seen watch.new)) }
{
    fill_first(alloc, sought, budget)?;
    try_all(alloc, sought, budget, Round::Early)?;
    try_all(alloc, sought, budget, Round::Late)?;
    let mut making = nothing_made(alloc, &sought.goal().given.planned.plan)?;
    for place in 0..sought.goal_count() {
        sought.turn_to(place + 1);
        let answer = next_answer(alloc, sought, budget, watch, &mut making)?;
        making.answers.push(answer)?;
    }
    Ok(generated(making))
}

/// Answers each goal of a plan, in order, by searching inputs: runs from the entry within the bounds, of which those count
/// that end as the ends say, and a budget of so many moves for the search of each goal.
///
/// A goal that an input hits that was made for an earlier one is covered by the first such input. Otherwise it is decided: an
/// input is made for it, which has exactly the answers that its run reads, and values of their kinds as words; or it is
/// refuted, since no input at all has a run within the bounds that hits it; or it stays undecided, and the watch is shown its
/// number, a formula that is exact for it, and the moves of the search of this formula, as many as the budget, after which it
/// isn't finished. The watch is shown nothing else. No goal stays undecided with a budget of at least 3 to the most variables
/// of its formula.
///
/// # Errors
///
/// Codes 80 and 81 are those of the unwinding. Code 82 at the limit of 8,388,608 says that the size of some goal is above it,
/// whether or not that goal would be searched. Each comes wherever it is so, in this order, unless memory runs out first, and
/// then the watch was shown nothing. Where memory runs out the watch may have been shown some goals.
pub fn generate<W: Watch>(
    alloc: Global,
    given: &Given,
    budget: u64,
    watch: &mut W,
) -> Result<Generated, Fault>
    ensures generated { IfOk result (λ made. (shown : List Shown)
        × IsGenerationOf given.now budget made shown
        × (W.seen watch.new ≡ seen_also (W.seen watch.old) shown)) }
    ensures enough { IfOk result (AreOpenWhereShort given.now budget) }
    ensures refused { IfErr result (CannotGenerate given.now) }
    ensures unseen { IfErr result (λ fault.
        IfRefused fault (λ _. W.seen watch.new ≡ W.seen watch.old)) }
{
    let unwound = unwinding(alloc, given)?;
    test_sizes(alloc, &given.planned.plan, unwound.pairs)?;
    let goal = Goal { given, number: 1 };
    let mut sought = Sought::over(alloc, goal, unwound)?;
    match all_answered(alloc, &mut sought, budget, watch) {
        Ok(made) => Ok(made),
        Err(Memory) => Err(Fault::Memory),
    }
}
