// A certificate checked against the formula of a goal.
ghost use Rattle.std.specs.Prelude.{List};
ghost use Rattle.command_words.specs.Reading.{Text};
ghost use Rattle.command_words.specs.Request.{checking};
ghost use Rattle.command_words.specs.Request as asks;
ghost use Rattle.command.specs.Answered.{IsTold};
ghost use Rattle.command.specs.Ranges.{IsInRange};
ghost use Rattle.command.specs.Reads.{reads};
ghost use Rattle.command.specs.Parts.{IsCheckedFor};
ghost use Rattle.command.specs.Replies.{Tells};
ghost use Rattle.goals.specs.GoalForm.{GoalForm};
ghost use Rattle.suite.specs.Seeking.{IsGoalOf};

use crate::certificate_file::read_certificate_file;
use crate::comparison::compared;
use crate::generate::within;
use crate::query::plan_at;
use crate::refusal::no_such_goal;
use crate::reply::Reply;
use crate::sources::automaton;
use crate::types::Certificate;
use command_words::Check;
use fq_core::Fault;
use fq_io::Files;
use goal_formula::formula;
use report::refuted_text;
use std::alloc::Global;
use suite_problem::{Given, Goal};
use unwinder::unwind;

// Makes the formula of a goal anew, and checks the certificate.
fn checked(alloc: Global, goal: &Goal, theirs: &Certificate) -> Result<Reply, Fault>
    ensures { (names : List Text) (one : GoalForm) → IsGoalOf goal.now one →
        Tells (IsCheckedFor goal.now one theirs.now names) names result }
{
    let given = goal.given;
    let graph = given.planned.entry.graph;
    let entry = given.planned.entry.number;
    let predicates = &given.planned.predicates;
    let plan = &given.planned.plan;
    let mut unwound = unwind(alloc, graph, entry, predicates, given.bounds, given.ends)?;
    let ours = formula(alloc, graph, predicates, &mut unwound, plan, goal.number)?;
    let text = refuted_text(alloc, goal.number, given.bounds, given.ends)?;
    compared(alloc, text, theirs, &ours.formula)
}

/// What is due of `check`.
pub fn check<F: Files>(alloc: Global, request: &Check, files: &mut F) -> Result<Reply, Fault>
    requires { IsInRange (asks.check (checking request.now)) }
    ensures { IsTold (reads F.Files files.old files.new)
        (asks.check (checking request.now)) result }
{
    let automaton = automaton(alloc, files, &request.sources)?;
    let planned = plan_at(alloc, &automaton, request.entry, request.query.as_bytes())?;
    if request.goal as usize > planned.plan.goals.len() {
        return Err(Fault::Refused(no_such_goal()));
    }
    let theirs = read_certificate_file(alloc, files, request.certificate)?;
    let given = Given {
        planned,
        bounds: within(request.bounds),
        ends: request.ends,
    };
    let goal = Goal {
        given: &given,
        number: request.goal,
    };
    checked(alloc, &goal, &theirs)
}
