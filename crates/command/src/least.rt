// The least input of a goal.
ghost use Rattle.std.specs.Prelude.{◌≡◌, List, IfOk};
ghost use Rattle.goals.specs.GoalForm.{GoalForm};
ghost use Rattle.suite.specs.Seeking.{IsGoalOf};
ghost use Rattle.command_words.specs.Reading.{Text};
ghost use Rattle.command_words.specs.Request.{proving};
ghost use Rattle.command_words.specs.Request as asks;
ghost use Rattle.command.specs.Answered.{IsGiven};
ghost use Rattle.command.specs.Least.{IsSaidOfLeast};
ghost use Rattle.command.specs.Parts.{IsLoweredFor};
ghost use Rattle.command.specs.Ranges.{IsInRange};
ghost use Rattle.command.specs.Reads.{reads};
ghost use Rattle.command.specs.Replies.{Gives, IsReply};
ghost use Rattle.command.specs.Watched.{watched};

use crate::generate::within;
use crate::query::plan_at;
use crate::refusal::no_such_goal;
use crate::reply::Reply;
use crate::sources::automaton;
use command_words::Prove;
use fq_core::{Fault, Memory};
use fq_io::Files;
use least_input::{Least, find_least};
use path_runner::Ends;
use report::{least_text, open_text, refuted_text};
use search::Watch;
use std::alloc::Global;
use suite::Sought;
use suite_problem::{Given, Goal};
use unwinder_reach::reached::Bounds;

// What is said of what is found of a goal. The watch is shown the search of one that stays open.
fn said_of<W: Watch>(
    alloc: Global,
    number: u32,
    bounds: Bounds,
    ends: Ends,
    least: Least,
    watch: &mut W,
) -> Result<Reply, Memory>
    ensures { IfOk result (λ reply. IsReply (IsSaidOfLeast number bounds ends least)
        (watched W.Watch watch.old watch.new) reply) }
{
    match least {
        Least::Found {
            input,
            formula: _formula,
            fixed: _fixed,
        } => {
            let text = least_text(alloc, number, &input)?;
            Ok(Reply::Answer {
                text,
                left_open: false,
            })
        }
        Least::Refuted {
            formula: _formula,
            derivation: _derivation,
        } => {
            let text = refuted_text(alloc, number, bounds, ends)?;
            Ok(Reply::Answer {
                text,
                left_open: false,
            })
        }
        Least::Open { formula, history } => {
            let text = open_text(alloc, number)?;
            watch.shown(number, &formula, &history)?;
            Ok(Reply::Answer {
                text,
                left_open: true,
            })
        }
    }
}

// Finds the least input of a goal, and says it.
fn lowered<W: Watch>(alloc: Global, goal: &Goal, budget: u64, watch: &mut W) -> Result<Reply, Fault>
    ensures { (names : List Text) (one : GoalForm) → IsGoalOf goal.now one →
        Gives (IsLoweredFor goal.now one budget names) names
        (watched W.Watch watch.old watch.new) result }
{
    let given = goal.given;
    let mut sought = Sought::at(alloc, *goal)?;
    let least = find_least(alloc, &mut sought, budget)?;
    let reply = said_of(alloc, goal.number, given.bounds, given.ends, least, watch)?;
    Ok(reply)
}

/// What is due of `least`.
pub fn least<F: Files, W: Watch>(
    alloc: Global,
    request: &Prove,
    files: &mut F,
    watch: &mut W,
) -> Result<Reply, Fault>
    requires { IsInRange (asks.least (proving request.now)) }
    ensures { IsGiven (reads F.Files files.old files.new) (watched W.Watch watch.old watch.new)
        (asks.least (proving request.now)) result }
{
    let automaton = automaton(alloc, files, &request.sources)?;
    let planned = plan_at(alloc, &automaton, request.entry, request.query.as_bytes())?;
    if request.goal as usize > planned.plan.goals.len() {
        return Err(Fault::Refused(no_such_goal()));
    }
    let given = Given {
        planned,
        bounds: within(request.bounds),
        ends: request.ends,
    };
    let goal = Goal {
        given: &given,
        number: request.goal,
    };
    lowered(alloc, &goal, request.budget as u64, watch)
}
