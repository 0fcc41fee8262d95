// Statements, a step at a time, but for loops.
ghost use Rattle.std.specs.Prelude.{◌≡◌, false, map, IfOk, IfErr, IfSome, OnOk};
ghost use Rattle.std.specs.Option.{option_map};
ghost use Rattle.c_values.specs.Kind.{IsKind, IsValue};
ghost use Rattle.c_values.specs.Operations.{is_shift};
ghost use Rattle.tree_meaning.specs.Outcomes.{Gives};
ghost use Rattle.tree_meaning.specs.Running.{meant_in, placed_in, assigned, combined_with, FitAssign, FitArms, FitExpression, FitExpressions, FitLast, FitOption, FitStatement, FitStatements};
ghost use Rattle.tree_meaning.specs.Statements.{declare, declare_array, return_value};
ghost use Rattle.tree_meaning.specs.Stopping.{IsStop};
ghost use Rattle.tree_meaning.specs.Tasks.{Leads, Stops, behind, left_off};
ghost use Rattle.tree_meaning.specs.declared.task.ArmStage.TheVariants as arm;
ghost use Rattle.tree_meaning.specs.declared.task.AssignStage.TheVariants as assigning;
ghost use Rattle.tree_meaning.specs.declared.task.StatementTask.TheVariants as task;
ghost use Rattle.tree_meaning.specs.declared.task.Task.TheVariants.{Statement};

use crate::agenda::Agenda;
use crate::loops::parts_of;
use crate::machine::Machine;
use crate::numbers::{fitted, operated};
use crate::places::{length_of, start_of};
use crate::rest::{cell_of, rest};
use crate::scene::Scene;
use crate::stop::Stop;
use crate::store::Store;
use crate::task::{
    ArmStage, AssignStage, Assignment, DoLoop, DoStage, GroupStage, Loop, LoopStage, LoopStep,
    LoopTest, StatementTask, Task, ValueTask,
};
use crate::way::{Way, is_on};
use c_typed_trees::{TypedExpr, TypedForm, TypedPlace, TypedStatement};
use c_values::{BinaryOp, Kind, binary_kind, convert};
use cfa::{Trap, Variable};
use containers::{Boxed, Vector};
use std::alloc::AllocError;

/// The declaration of an integer.
#[tactic(auto, using(crate::proofs::StatementSteps::declare_laws))]
fn declare<'a>(
    machine: &mut Machine<'a>,
    tasks: &mut Agenda<'a>,
    variable: &Variable,
    first: &'a Option<TypedExpr>,
) -> Result<(), AllocError>
    requires { FitOption first.now }
    ensures { OnOk result (left_off (behind tasks.old) machine.old (declare machine.old.scene.activation variable.now (option_map (meant_in machine.old.scene) first.now) machine.old.store) ≡ behind tasks.new machine.new) }
{
    let cell = start_of(machine.scene.activation(), variable.place);
    match first {
        None => {
            machine.store.put(cell, 0);
            machine.leave_off(Way::GoesOn);
            Ok(())
        }
        Some(tree) => {
            tasks.push(Task::Statement(StatementTask::Put(cell)))?;
            tasks.push(Task::Value(ValueTask::Evaluate(tree)))
        }
    }
}

/// The declaration of an array.
#[tactic(auto, using(crate::proofs::StatementSteps::declare_laws))]
fn declare_array<'a>(
    machine: &mut Machine<'a>,
    tasks: &mut Agenda<'a>,
    variable: &Variable,
    list: &'a [TypedExpr],
) -> Result<(), AllocError>
    requires { FitExpressions list.now }
    ensures { OnOk result (left_off (behind tasks.old) machine.old (declare_array machine.old.scene.activation variable.now (map (meant_in machine.old.scene) list.now) machine.old.store) ≡ behind tasks.new machine.new) }
{
    let cell = start_of(machine.scene.activation(), variable.place);
    machine.store.clear(cell, length_of(variable.length));
    tasks.push(Task::Statement(StatementTask::Fill(cell, list)))
}

/// `return`.
#[tactic(auto, using(crate::proofs::StatementSteps::return_laws))]
fn leave<'a>(
    machine: &mut Machine<'a>,
    tasks: &mut Agenda<'a>,
    value: &'a Option<TypedExpr>,
) -> Result<(), AllocError>
    requires { FitOption value.now }
    ensures { OnOk result (left_off (behind tasks.old) machine.old (return_value machine.old.scene.activation (option_map (meant_in machine.old.scene) value.now) machine.old.store) ≡ behind tasks.new machine.new) }
{
    match value {
        None => {
            machine.leave_off(Way::Returns);
            Ok(())
        }
        Some(tree) => {
            tasks.push(Task::Statement(StatementTask::ReturnValue))?;
            tasks.push(Task::Value(ValueTask::Evaluate(tree)))
        }
    }
}

/// A statement.
#[tactic(auto, using(crate::proofs::DoSteps::do_laws))]
pub(crate) fn perform<'a>(
    machine: &mut Machine<'a>,
    tasks: &mut Agenda<'a>,
    tree: &'a TypedStatement,
) -> Result<(), AllocError>
    requires { FitStatement tree.now }
    ensures { OnOk result (Leads (Statement (task.Do tree.entry)) tasks.old machine.old tasks.new machine.new) }
{
    match &tree.form {
        TypedForm::Block(body) => {
            machine.way = Way::GoesOn;
            tasks.push(Task::Statement(StatementTask::Block(body)))
        }
        TypedForm::Empty => {
            machine.leave_off(Way::GoesOn);
            Ok(())
        }
        TypedForm::Local { variable, first } => declare(machine, tasks, variable, first),
        TypedForm::LocalArray { variable, list } => declare_array(machine, tasks, variable, list),
        TypedForm::Assign {
            place,
            operator,
            value,
        } => {
            let parts = Assignment {
                place,
                operator: *operator,
                value,
            };
            let outer = machine.take_values();
            let stage = AssignStage::Value;
            tasks.push(Task::Statement(StatementTask::Assign(parts, stage, outer)))?;
            tasks.push(Task::Value(ValueTask::FirstInPlace(place)))
        }
        TypedForm::Call(call) => {
            tasks.push(Task::Statement(StatementTask::GoOn))?;
            tasks.push(Task::Value(ValueTask::Call(call)))
        }
        TypedForm::Label { name: _, body } => tasks.push(Task::Statement(StatementTask::Do(body))),
        TypedForm::If { arms, otherwise } => tasks.push(Task::Statement(StatementTask::Arms(
            arms,
            otherwise,
            ArmStage::Test,
        ))),
        TypedForm::While { test, body } => {
            let parts = Loop {
                test: LoopTest::When(test),
                step: LoopStep::Nothing,
                body,
            };
            tasks.push(Task::Loop(parts, LoopStage::Pass(machine.store.turns())))
        }
        TypedForm::Do { body, test } => {
            let parts = DoLoop { body, test };
            tasks.push(Task::DoLoop(parts, DoStage::Pass(machine.store.turns())))
        }
        TypedForm::For {
            first,
            test,
            next,
            body,
        } => {
            machine.way = Way::GoesOn;
            let parts = parts_of(test, next, body);
            tasks.push(Task::Loop(parts, LoopStage::Begin))?;
            tasks.push(Task::Statement(StatementTask::Block(first)))
        }
        TypedForm::Switch {
            value,
            cell: _,
            groups,
        } => {
            let stage = GroupStage::Find;
            tasks.push(Task::Statement(StatementTask::Groups(groups, stage)))?;
            tasks.push(Task::Value(ValueTask::Evaluate(value)))
        }
        TypedForm::Break => {
            machine.leave_off(Way::Breaks);
            Ok(())
        }
        TypedForm::Continue => {
            machine.leave_off(Way::Continues);
            Ok(())
        }
        TypedForm::Return(value) => leave(machine, tasks, value),
        TypedForm::Assert(test) => {
            tasks.push(Task::Statement(StatementTask::Assert))?;
            tasks.push(Task::Value(ValueTask::Evaluate(test)))
        }
        TypedForm::Assume(test) => {
            tasks.push(Task::Statement(StatementTask::Assume))?;
            tasks.push(Task::Value(ValueTask::Evaluate(test)))
        }
    }
}

/// Statements, as long as each goes on.
#[tactic(auto, using(crate::proofs::StatementSteps::block_laws))]
pub(crate) fn block<'a>(
    machine: &mut Machine<'a>,
    tasks: &mut Agenda<'a>,
    list: &'a [TypedStatement],
) -> Result<(), AllocError>
    requires { FitStatements list.now }
    ensures { OnOk result (Leads (Statement (task.Block list.entry)) tasks.old machine.old tasks.new machine.new) }
{
    if !is_on(machine.way) {
        machine.value = 0;
        return Ok(());
    }
    match list.split_first() {
        None => {
            machine.value = 0;
            Ok(())
        }
        Some((one, others)) => {
            tasks.push(Task::Statement(StatementTask::Block(others)))?;
            tasks.push(Task::Statement(StatementTask::Do(one)))
        }
    }
}

/// The value is put into a cell.
#[tactic(auto, using(crate::proofs::StatementSteps::put_laws))]
pub(crate) fn put<'a>(machine: &mut Machine<'a>, tasks: &Agenda<'a>, cell: usize)
    ensures { Leads (Statement (task.Put cell)) tasks.now machine.old tasks.now machine.new }
{
    machine.store.put(cell, machine.value);
    machine.leave_off(Way::GoesOn);
}

/// Values are put into cells in a row.
#[tactic(auto, using(crate::proofs::StatementSteps::fill_laws))]
pub(crate) fn fill<'a>(
    machine: &mut Machine<'a>,
    tasks: &mut Agenda<'a>,
    cell: usize,
    list: &'a [TypedExpr],
) -> Result<(), AllocError>
    requires { FitExpressions list.now }
    ensures { OnOk result (Leads (Statement (task.Fill cell list.entry)) tasks.old machine.old tasks.new machine.new) }
{
    match list.split_first() {
        None => {
            machine.leave_off(Way::GoesOn);
            Ok(())
        }
        Some((first, others)) => {
            if cell == usize::MAX {
                return Err(AllocError);
            }
            tasks.push(Task::Statement(StatementTask::Fill(cell + 1, others)))?;
            tasks.push(Task::Statement(StatementTask::Put(cell)))?;
            tasks.push(Task::Value(ValueTask::Evaluate(first)))
        }
    }
}

/// What an assignment puts into a cell, of what it holds and a value.
fn combined(
    own: Kind,
    operator: Option<(BinaryOp, Kind)>,
    kind: Kind,
    held: u64,
    value: u64,
) -> Result<u64, Trap>
    requires own { IsKind own }
    requires value { IsValue kind value }
    requires operator { IfSome operator (λ op. IsKind op.1 × (is_shift op.0 ≡ false → kind ≡ op.1)) }
    ensures { result ≡ combined_with own operator kind held value }
{
    match operator {
        None => Ok(value),
        Some((op, done_in)) => {
            let left = convert(fitted(held, own), own, done_in);
            let whole = operated(op, left, done_in, value, kind)?;
            Ok(convert(whole, binary_kind(op, done_in), own))
        }
    }
}

/// An assignment, behind the first parts of its place and its value.
#[tactic(auto, using(crate::proofs::AssignSteps::assigned_laws))]
fn assigned(
    scene: &Scene<'_>,
    parts: Assignment<'_>,
    index: &[u64],
    vs: &[u64],
    store: &mut Store<'_>,
) -> Result<Way, Stop>
    requires { FitAssign parts.place.now parts.operator parts.value.now }
    ensures made { IfOk result (λ way. assigned (placed_in scene.now parts.entry.place.now) parts.entry.operator (meant_in scene.now parts.entry.value.now) index.now vs.now store.old ≡ Gives way store.new) }
    ensures err { IfErr result (λ stop. IsStop stop (assigned (placed_in scene.now parts.entry.place.now) parts.entry.operator (meant_in scene.now parts.entry.value.now) index.now vs.now store.old)) }
{
    let cell = match cell_of(scene, store, parts.place, index) {
        Ok((cell, _left)) => cell,
        Err(trap) => return Err(Stop::Trapped(trap)),
    };
    let value = match rest(scene, store, parts.value, vs) {
        Ok(value) => value,
        Err(trap) => return Err(Stop::Trapped(trap)),
    };
    let held = store.at(cell);
    let own = parts.place.variable.kind;
    match combined(own, parts.operator, parts.value.kind, held, value) {
        Ok(made) => {
            store.put(cell, made);
            Ok(Way::GoesOn)
        }
        Err(trap) => Err(Stop::Trapped(trap)),
    }
}

/// An assignment behind the first part of its place, and behind that of its value too.
#[tactic(auto, using(crate::proofs::AssignSteps::assign_laws))]
pub(crate) fn assign<'a>(
    machine: &mut Machine<'a>,
    tasks: &mut Agenda<'a>,
    parts: Assignment<'a>,
    stage: AssignStage,
    outer: Vector<u64>,
) -> Result<(), Stop>
    requires { FitAssign parts.place.now parts.operator parts.value.now }
    ensures made { OnOk result (Leads (Statement (task.Assign parts.entry stage outer)) tasks.old machine.old tasks.new machine.new) }
    ensures err { IfErr result (λ stop. Stops (Statement (task.Assign parts.entry stage outer)) tasks.old machine.old stop) }
{
    match stage {
        AssignStage::Value => {
            let index = machine.take_values();
            let stage = AssignStage::Put(index);
            tasks.push(Task::Statement(StatementTask::Assign(parts, stage, outer)))?;
            tasks.push(Task::Value(ValueTask::First(parts.value)))?;
            Ok(())
        }
        AssignStage::Put(index) => {
            let way = assigned(
                &machine.scene,
                parts,
                &index,
                &machine.values,
                &mut machine.store,
            )?;
            machine.values = outer;
            machine.leave_off(way);
            Ok(())
        }
    }
}

/// A statement that is an expression is done.
#[tactic(auto, using(crate::proofs::StatementSteps::put_laws))]
pub(crate) fn go_on<'a>(machine: &mut Machine<'a>, tasks: &Agenda<'a>)
    ensures { Leads (Statement task.GoOn) tasks.now machine.old tasks.now machine.new }
{
    machine.leave_off(Way::GoesOn);
}

/// The arms of an `if`, and its last `else`: the first condition is to be evaluated, or has been.
#[tactic(auto, using(crate::proofs::StatementSteps::arms_laws))]
pub(crate) fn arms<'a>(
    machine: &mut Machine<'a>,
    tasks: &mut Agenda<'a>,
    list: &'a [(TypedExpr, TypedStatement)],
    otherwise: &'a Option<Boxed<TypedStatement>>,
    stage: ArmStage,
) -> Result<(), AllocError>
    requires list { FitArms list.now }
    requires otherwise { FitLast otherwise.now }
    ensures { OnOk result (Leads (Statement (task.Arms list.entry otherwise.entry stage)) tasks.old machine.old tasks.new machine.new) }
{
    match stage {
        ArmStage::Test => first_arm(machine, tasks, list, otherwise),
        ArmStage::Choose => choose_arm(machine, tasks, list, otherwise),
    }
}

#[tactic(auto, using(crate::proofs::StatementSteps::arms_laws))]
fn first_arm<'a>(
    machine: &mut Machine<'a>,
    tasks: &mut Agenda<'a>,
    list: &'a [(TypedExpr, TypedStatement)],
    otherwise: &'a Option<Boxed<TypedStatement>>,
) -> Result<(), AllocError>
    requires list { FitArms list.now }
    requires otherwise { FitLast otherwise.now }
    ensures { OnOk result (Leads (Statement (task.Arms list.entry otherwise.entry arm.Test)) tasks.old machine.old tasks.new machine.new) }
{
    match list.split_first() {
        None => match otherwise {
            None => {
                machine.leave_off(Way::GoesOn);
                Ok(())
            }
            Some(last) => tasks.push(Task::Statement(StatementTask::Do(last))),
        },
        Some((arm, _)) => {
            let stage = ArmStage::Choose;
            tasks.push(Task::Statement(StatementTask::Arms(list, otherwise, stage)))?;
            tasks.push(Task::Value(ValueTask::Evaluate(&arm.0)))
        }
    }
}

#[tactic(auto, using(crate::proofs::StatementSteps::arms_laws))]
fn choose_arm<'a>(
    machine: &mut Machine<'a>,
    tasks: &mut Agenda<'a>,
    list: &'a [(TypedExpr, TypedStatement)],
    otherwise: &'a Option<Boxed<TypedStatement>>,
) -> Result<(), AllocError>
    requires list { FitArms list.now }
    requires otherwise { FitLast otherwise.now }
    ensures { OnOk result (Leads (Statement (task.Arms list.entry otherwise.entry arm.Choose)) tasks.old machine.old tasks.new machine.new) }
{
    match list.split_first() {
        None => {
            machine.leave_off(Way::GoesOn);
            Ok(())
        }
        Some((arm, others)) => {
            if machine.value != 0 {
                return tasks.push(Task::Statement(StatementTask::Do(&arm.1)));
            }
            let stage = ArmStage::Test;
            tasks.push(Task::Statement(StatementTask::Arms(others, otherwise, stage)))
        }
    }
}

/// A `return` behind its value.
#[tactic(auto, using(crate::proofs::StatementSteps::return_laws))]
pub(crate) fn return_value<'a>(machine: &mut Machine<'a>, tasks: &Agenda<'a>)
    ensures { Leads (Statement task.ReturnValue) tasks.now machine.old tasks.now machine.new }
{
    let base = machine.scene.activation().base as usize;
    machine.store.put(base, machine.value);
    machine.leave_off(Way::Returns);
}

/// An assertion behind its value: one that is 0 traps.
#[tactic(auto, using(crate::proofs::StatementSteps::assert_laws))]
pub(crate) fn assert<'a>(machine: &mut Machine<'a>, tasks: &Agenda<'a>) -> Result<(), Stop>
    ensures made { OnOk result (Leads (Statement task.Assert) tasks.now machine.old tasks.now machine.new) }
    ensures err { IfErr result (λ stop. Stops (Statement task.Assert) tasks.now machine.old stop) }
{
    if machine.value == 0 {
        return Err(Stop::Trapped(Trap::Assert));
    }
    machine.leave_off(Way::GoesOn);
    Ok(())
}

/// An assumption behind its value: one that is 0 blocks the run.
#[tactic(auto, using(crate::proofs::StatementSteps::assert_laws))]
pub(crate) fn assume<'a>(machine: &mut Machine<'a>, tasks: &Agenda<'a>) -> Result<(), Stop>
    ensures made { OnOk result (Leads (Statement task.Assume) tasks.now machine.old tasks.now machine.new) }
    ensures err { IfErr result (λ stop. Stops (Statement task.Assume) tasks.now machine.old stop) }
{
    if machine.value == 0 {
        return Err(Stop::Blocked);
    }
    machine.leave_off(Way::GoesOn);
    Ok(())
}
