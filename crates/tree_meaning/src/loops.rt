// Loops, a step at a time.
ghost use Rattle.std.specs.Prelude.{◌≡◌, IfErr, OnOk};
ghost use Rattle.std.specs.Option.{option_map};
ghost use Rattle.tree_meaning.specs.Loops.{test_or, step_or};
ghost use Rattle.tree_meaning.specs.Running.{Scene as Setting, value_in, does_in, FitLast, FitOption, FitStatement};
ghost use Rattle.tree_meaning.specs.Tasks.{FitDoLoop, FitLoop, Leads, Stops, behind, left_off, loop_behind, step_does, step_fits, test_does, test_fits};
ghost use Rattle.tree_meaning.specs.declared.task.DoStage.TheVariants as round;
ghost use Rattle.tree_meaning.specs.declared.task.LoopStage.TheVariants as lap;
ghost use Rattle.tree_meaning.specs.declared.task.Task.TheVariants as task;

use crate::agenda::Agenda;
use crate::machine::Machine;
use crate::stop::Stop;
use crate::task::{
    DoLoop, DoStage, Loop, LoopStage, LoopStep, LoopTest, StatementTask, Task, ValueTask,
};
use crate::way::{Way, is_on};
use c_typed_trees::{TypedExpr, TypedStatement};
use containers::Boxed;
use std::alloc::AllocError;

/// A loop whose first part is done.
#[tactic(auto, using(crate::proofs::LoopSteps::begin_laws))]
fn begin<'a>(
    machine: &mut Machine<'a>,
    tasks: &mut Agenda<'a>,
    parts: Loop<'a>,
) -> Result<(), AllocError>
    requires { FitLoop parts }
    ensures { OnOk result (Leads (task.Loop parts.entry lap.Begin) tasks.old machine.old tasks.new machine.new) }
{
    if is_on(machine.way) {
        return tasks.push(Task::Loop(parts, LoopStage::Pass(machine.store.turns())));
    }
    machine.value = 0;
    Ok(())
}

/// A pass begins with its condition.
#[tactic(auto, using(crate::proofs::LoopSteps::pass_laws))]
fn pass<'a>(
    machine: &mut Machine<'a>,
    tasks: &mut Agenda<'a>,
    parts: Loop<'a>,
    left: u64,
) -> Result<(), AllocError>
    requires { FitLoop parts }
    ensures { OnOk result (Leads (task.Loop parts.entry (lap.Pass left)) tasks.old machine.old tasks.new machine.new) }
{
    tasks.push(Task::Loop(parts, LoopStage::Tested(left)))?;
    match parts.test {
        LoopTest::Always => {
            machine.value = 1;
            Ok(())
        }
        LoopTest::When(test) => tasks.push(Task::Value(ValueTask::Evaluate(test))),
    }
}

/// A pass behind its condition takes a turn.
#[tactic(auto, using(crate::proofs::LoopSteps::tested_laws))]
fn tested<'a>(
    machine: &mut Machine<'a>,
    tasks: &mut Agenda<'a>,
    parts: Loop<'a>,
    left: u64,
) -> Result<(), Stop>
    requires { FitLoop parts }
    ensures made { OnOk result (Leads (task.Loop parts.entry (lap.Tested left)) tasks.old machine.old tasks.new machine.new) }
    ensures err { IfErr result (λ stop. Stops (task.Loop parts.entry (lap.Tested left)) tasks.old machine.old stop) }
{
    if machine.value == 0 {
        machine.leave_off(Way::GoesOn);
        return Ok(());
    }
    machine.store.take_turn()?;
    tasks.push(Task::Loop(parts, LoopStage::Stepped(left)))?;
    tasks.push(Task::Statement(StatementTask::Do(parts.body)))?;
    Ok(())
}

/// A pass behind its body: `break` ends the loop, and `continue` goes on to its next pass.
#[tactic(auto, using(crate::proofs::LoopSteps::stepped_laws))]
fn stepped<'a>(
    machine: &mut Machine<'a>,
    tasks: &mut Agenda<'a>,
    parts: Loop<'a>,
    left: u64,
) -> Result<(), AllocError>
    requires { FitLoop parts }
    ensures { OnOk result (Leads (task.Loop parts.entry (lap.Stepped left)) tasks.old machine.old tasks.new machine.new) }
{
    match machine.way {
        Way::GoesOn => step(machine, tasks, parts, left),
        Way::Continues => step(machine, tasks, parts, left),
        Way::Breaks => {
            machine.leave_off(Way::GoesOn);
            Ok(())
        }
        Way::Returns => {
            machine.leave_off(Way::Returns);
            Ok(())
        }
    }
}

/// The step of a pass, and then the next pass.
#[tactic(auto, using(crate::proofs::LoopSteps::step_laws))]
fn step<'a>(
    machine: &mut Machine<'a>,
    tasks: &mut Agenda<'a>,
    parts: Loop<'a>,
    left: u64,
) -> Result<(), AllocError>
    requires { FitLoop parts }
    ensures { OnOk result (left_off (behind tasks.old) machine.old (loop_behind machine.old.scene parts.entry left machine.old.store) ≡ behind tasks.new machine.new) }
{
    tasks.push(Task::Loop(parts, LoopStage::Again(left)))?;
    match parts.step {
        LoopStep::Nothing => {
            machine.leave_off(Way::GoesOn);
            Ok(())
        }
        LoopStep::Do(step) => tasks.push(Task::Statement(StatementTask::Do(step))),
    }
}

/// A pass behind its step.
#[tactic(auto, using(crate::proofs::LoopSteps::again_laws))]
fn again<'a>(
    machine: &mut Machine<'a>,
    tasks: &mut Agenda<'a>,
    parts: Loop<'a>,
    left: u64,
) -> Result<(), Stop>
    requires { FitLoop parts }
    ensures made { OnOk result (Leads (task.Loop parts.entry (lap.Again left)) tasks.old machine.old tasks.new machine.new) }
    ensures err { IfErr result (λ stop. Stops (task.Loop parts.entry (lap.Again left)) tasks.old machine.old stop) }
{
    if !is_on(machine.way) {
        machine.value = 0;
        return Ok(());
    }
    if left == 0 {
        return Err(Stop::OutOfTurns);
    }
    tasks.push(Task::Loop(parts, LoopStage::Pass(left - 1)))?;
    Ok(())
}

/// A `while`, or a `for` behind its first part, from a stage on to the next.
pub(crate) fn loop_task<'a>(
    machine: &mut Machine<'a>,
    tasks: &mut Agenda<'a>,
    parts: Loop<'a>,
    stage: LoopStage,
) -> Result<(), Stop>
    requires { FitLoop parts }
    ensures made { OnOk result (Leads (task.Loop parts.entry stage) tasks.old machine.old tasks.new machine.new) }
    ensures err { IfErr result (λ stop. Stops (task.Loop parts.entry stage) tasks.old machine.old stop) }
{
    match stage {
        LoopStage::Begin => begin(machine, tasks, parts)?,
        LoopStage::Pass(left) => pass(machine, tasks, parts, left)?,
        LoopStage::Tested(left) => tested(machine, tasks, parts, left)?,
        LoopStage::Stepped(left) => stepped(machine, tasks, parts, left)?,
        LoopStage::Again(left) => again(machine, tasks, parts, left)?,
    }
    Ok(())
}

/// A pass of a `do` takes a turn.
#[tactic(auto, using(crate::proofs::LoopSteps::do_laws))]
fn do_pass<'a>(
    machine: &mut Machine<'a>,
    tasks: &mut Agenda<'a>,
    parts: DoLoop<'a>,
    left: u64,
) -> Result<(), Stop>
    requires { FitDoLoop parts }
    ensures made { OnOk result (Leads (task.DoLoop parts.entry (round.Pass left)) tasks.old machine.old tasks.new machine.new) }
    ensures err { IfErr result (λ stop. Stops (task.DoLoop parts.entry (round.Pass left)) tasks.old machine.old stop) }
{
    machine.store.take_turn()?;
    tasks.push(Task::DoLoop(parts, DoStage::Test(left)))?;
    tasks.push(Task::Statement(StatementTask::Do(parts.body)))?;
    Ok(())
}

/// A pass of a `do` behind its body.
#[tactic(auto, using(crate::proofs::LoopSteps::do_laws))]
fn do_test<'a>(
    machine: &mut Machine<'a>,
    tasks: &mut Agenda<'a>,
    parts: DoLoop<'a>,
    left: u64,
) -> Result<(), AllocError>
    requires { FitDoLoop parts }
    ensures { OnOk result (Leads (task.DoLoop parts.entry (round.Test left)) tasks.old machine.old tasks.new machine.new) }
{
    match machine.way {
        Way::GoesOn => {
            tasks.push(Task::DoLoop(parts, DoStage::Tested(left)))?;
            tasks.push(Task::Value(ValueTask::Evaluate(parts.test)))
        }
        Way::Continues => {
            tasks.push(Task::DoLoop(parts, DoStage::Tested(left)))?;
            tasks.push(Task::Value(ValueTask::Evaluate(parts.test)))
        }
        Way::Breaks => {
            machine.leave_off(Way::GoesOn);
            Ok(())
        }
        Way::Returns => {
            machine.leave_off(Way::Returns);
            Ok(())
        }
    }
}

/// A pass of a `do` behind its condition.
#[tactic(auto, using(crate::proofs::LoopSteps::do_laws))]
fn do_tested<'a>(
    machine: &mut Machine<'a>,
    tasks: &mut Agenda<'a>,
    parts: DoLoop<'a>,
    left: u64,
) -> Result<(), Stop>
    requires { FitDoLoop parts }
    ensures made { OnOk result (Leads (task.DoLoop parts.entry (round.Tested left)) tasks.old machine.old tasks.new machine.new) }
    ensures err { IfErr result (λ stop. Stops (task.DoLoop parts.entry (round.Tested left)) tasks.old machine.old stop) }
{
    if machine.value == 0 {
        machine.leave_off(Way::GoesOn);
        return Ok(());
    }
    if left == 0 {
        return Err(Stop::OutOfTurns);
    }
    tasks.push(Task::DoLoop(parts, DoStage::Pass(left - 1)))?;
    Ok(())
}

/// A `do`, from a stage on to the next.
pub(crate) fn do_task<'a>(
    machine: &mut Machine<'a>,
    tasks: &mut Agenda<'a>,
    parts: DoLoop<'a>,
    stage: DoStage,
) -> Result<(), Stop>
    requires { FitDoLoop parts }
    ensures made { OnOk result (Leads (task.DoLoop parts.entry stage) tasks.old machine.old tasks.new machine.new) }
    ensures err { IfErr result (λ stop. Stops (task.DoLoop parts.entry stage) tasks.old machine.old stop) }
{
    match stage {
        DoStage::Pass(left) => do_pass(machine, tasks, parts, left)?,
        DoStage::Test(left) => do_test(machine, tasks, parts, left)?,
        DoStage::Tested(left) => do_tested(machine, tasks, parts, left)?,
    }
    Ok(())
}

/// The condition of a `for`.
#[tactic(auto, using(crate::proofs::LoopParts::test_laws))]
fn test_of<'a>(test: &'a Option<TypedExpr>) -> LoopTest<'a>
    requires { FitOption test.now }
    ensures means { (c : Setting) → test_does c result ≡ test_or (option_map (value_in c) test.now) }
    ensures fits { test_fits result }
{
    match test {
        None => LoopTest::Always,
        Some(tree) => LoopTest::When(tree),
    }
}

/// The step of a `for`.
#[tactic(auto, using(crate::proofs::LoopParts::step_laws))]
fn step_of<'a>(next: &'a Option<Boxed<TypedStatement>>) -> LoopStep<'a>
    requires { FitLast next.now }
    ensures means { (c : Setting) → step_does c result ≡ step_or (option_map (does_in c) next.now) }
    ensures fits { step_fits result }
{
    match next {
        None => LoopStep::Nothing,
        Some(step) => LoopStep::Do(step),
    }
}

/// A `for` behind its first part.
pub(crate) fn parts_of<'a>(
    test: &'a Option<TypedExpr>,
    next: &'a Option<Boxed<TypedStatement>>,
    body: &'a TypedStatement,
) -> Loop<'a>
    requires test { FitOption test.now }
    requires next { FitLast next.now }
    requires body { FitStatement body.now }
    ensures test { (c : Setting) → test_does c result.test ≡ test_or (option_map (value_in c) test.now) }
    ensures step { (c : Setting) → step_does c result.step ≡ step_or (option_map (does_in c) next.now) }
    ensures body { result.body.now ≡ body.now }
    ensures fits { FitLoop result }
{
    Loop {
        test: test_of(test),
        step: step_of(next),
        body,
    }
}
