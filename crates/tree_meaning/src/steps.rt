// The steps of a run.
ghost use Rattle.std.specs.Prelude.{◌≡◌, IfErr, OnOk};
ghost use Rattle.tree_meaning.specs.Outcomes.{Gives};
ghost use Rattle.tree_meaning.specs.Stopping.{IsStop};
ghost use Rattle.tree_meaning.specs.Tasks.{Leads, Stops, behind, statement_task_fits, task_fits, value_task_fits};
ghost use Rattle.tree_meaning.specs.declared.task.Task.TheVariants.{Statement, Value};

use crate::agenda::Agenda;
use crate::loops::{do_task, loop_task};
use crate::machine::Machine;
use crate::stop::Stop;
use crate::task::{StatementTask, Task, ValueTask};
use crate::{calls, statements, switch, values};

/// A part of an evaluation.
fn value_step<'a>(
    machine: &mut Machine<'a>,
    tasks: &mut Agenda<'a>,
    task: ValueTask<'a>,
) -> Result<(), Stop>
    requires { value_task_fits task }
    ensures made { OnOk result (Leads (Value task.entry) tasks.old machine.old tasks.new machine.new) }
    ensures err { IfErr result (λ stop. Stops (Value task.entry) tasks.old machine.old stop) }
{
    match task {
        ValueTask::Evaluate(tree) => values::evaluate(machine, tasks, tree)?,
        ValueTask::First(tree) => values::first(machine, tasks, tree)?,
        ValueTask::FirstInPlace(place) => values::first_in_place(machine, tasks, place)?,
        ValueTask::Rest(tree, outer) => values::finish(machine, tasks, tree, outer)?,
        ValueTask::Keep => values::keep(machine, tasks)?,
        ValueTask::Part(tree) => values::part(machine, tasks, tree)?,
        ValueTask::AndThen(right) => values::and_then(machine, tasks, right)?,
        ValueTask::OrElse(right) => values::or_else(machine, tasks, right)?,
        ValueTask::Choose(yes, no) => values::choose(machine, tasks, yes, no)?,
        ValueTask::Truth => values::truth(machine, tasks),
        ValueTask::Call(tree) => calls::call(machine, tasks, tree)?,
        ValueTask::Firsts(list) => values::firsts(machine, tasks, list)?,
        ValueTask::Begin(tree, callee, outer) => calls::begin(machine, tasks, tree, callee, outer)?,
        ValueTask::Leave(caller, outer, way) => calls::leave(machine, tasks, caller, outer, way),
    }
    Ok(())
}

/// A part of what a statement does.
fn statement_step<'a>(
    machine: &mut Machine<'a>,
    tasks: &mut Agenda<'a>,
    task: StatementTask<'a>,
) -> Result<(), Stop>
    requires { statement_task_fits task }
    ensures made { OnOk result (Leads (Statement task.entry) tasks.old machine.old tasks.new machine.new) }
    ensures err { IfErr result (λ stop. Stops (Statement task.entry) tasks.old machine.old stop) }
{
    match task {
        StatementTask::Do(tree) => statements::perform(machine, tasks, tree)?,
        StatementTask::Block(list) => statements::block(machine, tasks, list)?,
        StatementTask::Put(cell) => statements::put(machine, tasks, cell),
        StatementTask::Fill(cell, list) => statements::fill(machine, tasks, cell, list)?,
        StatementTask::Assign(parts, stage, outer) => {
            statements::assign(machine, tasks, parts, stage, outer)?
        }
        StatementTask::GoOn => statements::go_on(machine, tasks),
        StatementTask::Arms(list, last, stage) => {
            statements::arms(machine, tasks, list, last, stage)?
        }
        StatementTask::ReturnValue => statements::return_value(machine, tasks),
        StatementTask::Assert => statements::assert(machine, tasks)?,
        StatementTask::Assume => statements::assume(machine, tasks)?,
        StatementTask::Groups(groups, stage) => switch::groups(machine, tasks, groups, stage)?,
        StatementTask::AfterSwitch => switch::after(machine, tasks),
    }
    Ok(())
}

/// A task.
fn step<'a>(machine: &mut Machine<'a>, tasks: &mut Agenda<'a>, task: Task<'a>) -> Result<(), Stop>
    requires { task_fits task }
    ensures made { OnOk result (Leads task.entry tasks.old machine.old tasks.new machine.new) }
    ensures err { IfErr result (λ stop. Stops task.entry tasks.old machine.old stop) }
{
    match task {
        Task::Value(task) => value_step(machine, tasks, task),
        Task::Statement(task) => statement_step(machine, tasks, task),
        Task::Loop(parts, stage) => loop_task(machine, tasks, parts, stage),
        Task::DoLoop(parts, stage) => do_task(machine, tasks, parts, stage),
    }
}

/// All tasks, one after another. A run of 2^64 steps is refused as if memory were short.
#[tactic(auto, using(crate::proofs::Rows::run_laws))]
pub(crate) fn run<'a>(machine: &mut Machine<'a>, tasks: &mut Agenda<'a>) -> Result<(), Stop>
    ensures made { OnOk result (behind tasks.old machine.old ≡ Gives machine.new.way machine.new.store) }
    ensures err { IfErr result (λ stop. IsStop stop (behind tasks.old machine.old)) }
{
    'steps: for _ in 0..u64::MAX {
        match tasks.pop() {
            None => return Ok(()),
            Some(task) => step(machine, tasks, task)?,
        }
    }
    Err(Stop::Memory)
}
