// One goal decided, and what is said of it.
ghost use Rattle.std.specs.Prelude.{ℕ, List, IfOk};
ghost use Rattle.goals.specs.GoalForm.{GoalForm};
ghost use Rattle.suite.specs.Seeking.{IsDecidedAs, IsGoalOf, IsMadeAs};
ghost use Rattle.command_words.specs.Reading.{Text};
ghost use Rattle.command_words.specs.Request.{proving};
ghost use Rattle.command_words.specs.Request as asks;
ghost use Rattle.command.specs.Answered.{IsGiven};
ghost use Rattle.command.specs.Parts.{IsProvedFor, IsSaidFor};
ghost use Rattle.command.specs.Ranges.{IsInRange};
ghost use Rattle.command.specs.Reads.{reads};
ghost use Rattle.command.specs.Replies.{Gives, IsReply};
ghost use Rattle.command.specs.Said.{answered};
ghost use Rattle.command.specs.Watched.{watched};

use crate::generate::within;
use crate::query::plan_at;
use crate::refusal::no_such_goal;
use crate::reply::Reply;
use crate::sources::automaton;
use c_meaning::Input;
use certificate::write_certificate;
use command_words::Prove;
use fq_core::{Fault, Memory};
use fq_io::Files;
use report::{proved_text, undecided_text};
use search::Watch;
use std::alloc::Global;
use suite::{Decided, Sought, decide, replay};
use suite_problem::{Given, Goal};

// The line of a goal that an input covers.
fn covered(alloc: Global, sought: &Sought, input: &Input) -> Result<Vec<u8>, Memory>
    requires { (one : GoalForm) × IsMadeAs sought.now.goal one input.now }
    ensures { IfOk result (λ text. (one : GoalForm) → IsMadeAs sought.now.goal one input.now
        → IsSaidFor sought.now.goal one (Decided.Covered input.now) (answered text.items)) }
{
    let goal = sought.goal();
    let entry = goal.given.planned.entry;
    let run = replay(alloc, sought, input)?;
    proved_text(
        alloc,
        entry.graph,
        entry.number,
        goal.number,
        input,
        &run.taken,
    )
}

// What is said of what is found of a goal. The watch is shown the search of one that stays undecided.
fn said_of<W: Watch>(
    alloc: Global,
    sought: &Sought,
    decided: Decided,
    watch: &mut W,
) -> Result<Reply, Memory>
    requires { (one : GoalForm) × ((budget : ℕ) × IsDecidedAs sought.now.goal one budget decided) }
    ensures { IfOk result (λ reply. (one : GoalForm) (budget : ℕ)
        → IsDecidedAs sought.now.goal one budget decided
        → IsReply (IsSaidFor sought.now.goal one decided)
        (watched W.Watch watch.old watch.new) reply) }
{
    match decided {
        Decided::Covered(input) => {
            let text = covered(alloc, sought, &input)?;
            Ok(Reply::Answer {
                text,
                left_open: false,
            })
        }
        Decided::Refuted {
            formula,
            derivation,
        } => {
            let text = write_certificate(alloc, &formula.formula, &derivation)?;
            Ok(Reply::Answer {
                text,
                left_open: false,
            })
        }
        Decided::Undecided { formula, history } => {
            let number = sought.goal().number;
            let text = undecided_text(alloc, number)?;
            watch.shown(number, &formula.formula, &history)?;
            Ok(Reply::Answer {
                text,
                left_open: true,
            })
        }
    }
}

// Decides a goal, and says what is found of it.
fn proof<W: Watch>(alloc: Global, goal: &Goal, budget: u64, watch: &mut W) -> Result<Reply, Fault>
    ensures { (names : List Text) (one : GoalForm) → IsGoalOf goal.now one →
        Gives (IsProvedFor goal.now one budget names) names
        (watched W.Watch watch.old watch.new) result }
{
    let mut sought = Sought::at(alloc, *goal)?;
    let decided = decide(alloc, &mut sought, budget)?;
    let reply = said_of(alloc, &sought, decided, watch)?;
    Ok(reply)
}

/// What is due of `prove`.
pub fn prove<F: Files, W: Watch>(
    alloc: Global,
    request: &Prove,
    files: &mut F,
    watch: &mut W,
) -> Result<Reply, Fault>
    requires { IsInRange (asks.prove (proving request.now)) }
    ensures { IsGiven (reads F.Files files.old files.new) (watched W.Watch watch.old watch.new)
        (asks.prove (proving request.now)) result }
{
    let automaton = automaton(alloc, files, &request.sources)?;
    let planned = plan_at(alloc, &automaton, request.entry, request.query.as_bytes())?;
    if request.goal as usize > planned.plan.goals.len() {
        return Err(Fault::Refused(no_such_goal()));
    }
    let given = Given {
        planned,
        bounds: within(request.bounds),
        ends: request.ends,
    };
    let goal = Goal {
        given: &given,
        number: request.goal,
    };
    proof(alloc, &goal, request.budget as u64, watch)
}
