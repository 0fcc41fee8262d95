// Expressions, a step at a time: first their outermost calls, `&&`, `||` and `?:`, and then the rest.
ghost use Rattle.std.specs.Prelude.{◌≡◌, IfErr, OnOk};
ghost use Rattle.tree_meaning.specs.Running.{FitExpression, FitExpressions, FitPlace};
ghost use Rattle.tree_meaning.specs.Tasks.{Leads, Stops, behind, value_does};
ghost use Rattle.tree_meaning.specs.declared.task.Task.TheVariants.{Value};
ghost use Rattle.tree_meaning.specs.declared.task.ValueTask.TheVariants as task;

use crate::agenda::Agenda;
use crate::machine::Machine;
use crate::rest::rest;
use crate::stop::Stop;
use crate::task::{Task, ValueTask};
use c_typed_trees::{TypedExpr, TypedExprForm, TypedPlace};
use containers::Vector;
use std::alloc::AllocError;

/// The value of an expression.
#[tactic(auto, using(crate::proofs::ValueSteps::evaluate_laws))]
pub(crate) fn evaluate<'a>(
    machine: &mut Machine<'a>,
    tasks: &mut Agenda<'a>,
    tree: &'a TypedExpr,
) -> Result<(), AllocError>
    requires { FitExpression tree.now }
    ensures { OnOk result (Leads (Value (task.Evaluate tree.entry)) tasks.old machine.old tasks.new machine.new) }
{
    let outer = machine.take_values();
    tasks.push(Task::Value(ValueTask::Rest(tree, outer)))?;
    tasks.push(Task::Value(ValueTask::First(tree)))
}

/// What an expression does first.
#[tactic(auto, using(crate::proofs::ValueSteps::first_laws))]
pub(crate) fn first<'a>(
    machine: &mut Machine<'a>,
    tasks: &mut Agenda<'a>,
    tree: &'a TypedExpr,
) -> Result<(), AllocError>
    requires { FitExpression tree.now }
    ensures { OnOk result (Leads (Value (task.First tree.entry)) tasks.old machine.old tasks.new machine.new) }
{
    match &tree.form {
        TypedExprForm::Constant(_) => {
            machine.value = 0;
            Ok(())
        }
        TypedExprForm::Load(place) => tasks.push(Task::Value(ValueTask::FirstInPlace(place))),
        TypedExprForm::Convert(inner) => tasks.push(Task::Value(ValueTask::First(inner))),
        TypedExprForm::Unary(_, inner) => tasks.push(Task::Value(ValueTask::First(inner))),
        TypedExprForm::Binary(_, left, right) => {
            tasks.push(Task::Value(ValueTask::First(right)))?;
            tasks.push(Task::Value(ValueTask::First(left)))
        }
        TypedExprForm::Both { .. } => kept(tasks, tree),
        TypedExprForm::Either { .. } => kept(tasks, tree),
        TypedExprForm::Choice { .. } => kept(tasks, tree),
        TypedExprForm::Call(_) => kept(tasks, tree),
    }
}

fn kept<'a>(tasks: &mut Agenda<'a>, tree: &'a TypedExpr) -> Result<(), AllocError>
    requires { FitExpression tree.now }
    ensures { OnOk result (behind tasks.new ≡ value_does (task.Part tree.entry) (value_does task.Keep (behind tasks.old))) }
{
    tasks.push(Task::Value(ValueTask::Keep))?;
    tasks.push(Task::Value(ValueTask::Part(tree)))
}

/// What the index of a place does first.
#[tactic(auto, using(crate::proofs::ValueSteps::place_laws))]
pub(crate) fn first_in_place<'a>(
    machine: &mut Machine<'a>,
    tasks: &mut Agenda<'a>,
    place: &'a TypedPlace,
) -> Result<(), AllocError>
    requires { FitPlace place.now }
    ensures { OnOk result (Leads (Value (task.FirstInPlace place.entry)) tasks.old machine.old tasks.new machine.new) }
{
    match &place.index {
        None => {
            machine.value = 0;
            Ok(())
        }
        Some(index) => tasks.push(Task::Value(ValueTask::First(index))),
    }
}

/// The rest of an expression, and the values of the expression around it.
#[tactic(auto, using(crate::proofs::ValueSteps::rest_step_laws))]
pub(crate) fn finish<'a>(
    machine: &mut Machine<'a>,
    tasks: &Agenda<'a>,
    tree: &'a TypedExpr,
    outer: Vector<u64>,
) -> Result<(), Stop>
    requires { FitExpression tree.now }
    ensures made { OnOk result (Leads (Value (task.Rest tree.entry outer)) tasks.now machine.old tasks.now machine.new) }
    ensures err { IfErr result (λ stop. Stops (Value (task.Rest tree.entry outer)) tasks.now machine.old stop) }
{
    match rest(&machine.scene, &machine.store, tree, &machine.values) {
        Ok(value) => {
            machine.value = value;
            machine.values = outer;
            Ok(())
        }
        Err(trap) => Err(Stop::Trapped(trap)),
    }
}

/// The value is put behind the values.
#[tactic(auto, using(crate::proofs::ValueSteps::keep_laws))]
pub(crate) fn keep<'a>(machine: &mut Machine<'a>, tasks: &Agenda<'a>) -> Result<(), AllocError>
    ensures { OnOk result (Leads (Value task.Keep) tasks.now machine.old tasks.now machine.new) }
{
    machine.values.push(machine.value)?;
    machine.value = 0;
    Ok(())
}

/// The value of an `&&`, `||`, `?:` or call.
#[tactic(auto, using(crate::proofs::ValueSteps::part_laws))]
pub(crate) fn part<'a>(
    machine: &mut Machine<'a>,
    tasks: &mut Agenda<'a>,
    tree: &'a TypedExpr,
) -> Result<(), AllocError>
    requires { FitExpression tree.now }
    ensures { OnOk result (Leads (Value (task.Part tree.entry)) tasks.old machine.old tasks.new machine.new) }
{
    match &tree.form {
        TypedExprForm::Both { left, right, .. } => {
            tasks.push(Task::Value(ValueTask::AndThen(right)))?;
            tasks.push(Task::Value(ValueTask::Evaluate(left)))
        }
        TypedExprForm::Either { left, right, .. } => {
            tasks.push(Task::Value(ValueTask::OrElse(right)))?;
            tasks.push(Task::Value(ValueTask::Evaluate(left)))
        }
        TypedExprForm::Choice { test, yes, no, .. } => {
            tasks.push(Task::Value(ValueTask::Choose(yes, no)))?;
            tasks.push(Task::Value(ValueTask::Evaluate(test)))
        }
        TypedExprForm::Call(call) => tasks.push(Task::Value(ValueTask::Call(call))),
        TypedExprForm::Constant(_) => {
            machine.value = 0;
            Ok(())
        }
        TypedExprForm::Load(_) => {
            machine.value = 0;
            Ok(())
        }
        TypedExprForm::Convert(_) => {
            machine.value = 0;
            Ok(())
        }
        TypedExprForm::Unary(..) => {
            machine.value = 0;
            Ok(())
        }
        TypedExprForm::Binary(..) => {
            machine.value = 0;
            Ok(())
        }
    }
}

/// An `&&` behind its first operand.
#[tactic(auto, using(crate::proofs::ValueSteps::truth_laws))]
pub(crate) fn and_then<'a>(
    machine: &Machine<'a>,
    tasks: &mut Agenda<'a>,
    right: &'a TypedExpr,
) -> Result<(), AllocError>
    requires { FitExpression right.now }
    ensures { OnOk result (Leads (Value (task.AndThen right.entry)) tasks.old machine.now tasks.new machine.now) }
{
    if machine.value == 0 {
        return Ok(());
    }
    tasks.push(Task::Value(ValueTask::Truth))?;
    tasks.push(Task::Value(ValueTask::Evaluate(right)))
}

/// An `||` behind its first operand.
#[tactic(auto, using(crate::proofs::ValueSteps::truth_laws))]
pub(crate) fn or_else<'a>(
    machine: &mut Machine<'a>,
    tasks: &mut Agenda<'a>,
    right: &'a TypedExpr,
) -> Result<(), AllocError>
    requires { FitExpression right.now }
    ensures { OnOk result (Leads (Value (task.OrElse right.entry)) tasks.old machine.old tasks.new machine.new) }
{
    if machine.value != 0 {
        machine.value = 1;
        return Ok(());
    }
    tasks.push(Task::Value(ValueTask::Truth))?;
    tasks.push(Task::Value(ValueTask::Evaluate(right)))
}

/// A `?:` behind its first operand.
#[tactic(auto, using(crate::proofs::ValueSteps::truth_laws))]
pub(crate) fn choose<'a>(
    machine: &Machine<'a>,
    tasks: &mut Agenda<'a>,
    yes: &'a TypedExpr,
    no: &'a TypedExpr,
) -> Result<(), AllocError>
    requires yes { FitExpression yes.now }
    requires no { FitExpression no.now }
    ensures { OnOk result (Leads (Value (task.Choose yes.entry no.entry)) tasks.old machine.now tasks.new machine.now) }
{
    if machine.value == 0 {
        tasks.push(Task::Value(ValueTask::Evaluate(no)))
    } else {
        tasks.push(Task::Value(ValueTask::Evaluate(yes)))
    }
}

/// 1 in place of a value other than 0.
#[tactic(auto, using(crate::proofs::ValueSteps::truth_laws))]
pub(crate) fn truth<'a>(machine: &mut Machine<'a>, tasks: &Agenda<'a>)
    ensures { Leads (Value task.Truth) tasks.now machine.old tasks.now machine.new }
{
    if machine.value != 0 {
        machine.value = 1;
    }
}

/// What expressions do first, one after another.
#[tactic(auto, using(crate::proofs::ValueSteps::firsts_laws))]
pub(crate) fn firsts<'a>(
    machine: &mut Machine<'a>,
    tasks: &mut Agenda<'a>,
    list: &'a [TypedExpr],
) -> Result<(), AllocError>
    requires { FitExpressions list.now }
    ensures { OnOk result (Leads (Value (task.Firsts list.entry)) tasks.old machine.old tasks.new machine.new) }
{
    match list.split_first() {
        None => {
            machine.value = 0;
            Ok(())
        }
        Some((word, others)) => {
            tasks.push(Task::Value(ValueTask::Firsts(others)))?;
            tasks.push(Task::Value(ValueTask::First(word)))
        }
    }
}
