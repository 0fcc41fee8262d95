// `switch`, a step at a time.
ghost use Rattle.std.specs.Prelude.{◌≡◌, ◌<◌, ◌≤◌, drop, length, map, position, IfSome, OnOk};
ghost use Rattle.tree_meaning.specs.Running.{Scene as Setting, group_in, FitGroups};
ghost use Rattle.tree_meaning.specs.Switch.{groups_at, is_label, has_label};
ghost use Rattle.tree_meaning.specs.Tasks.{Leads};
ghost use Rattle.tree_meaning.specs.declared.task.GroupStage.TheVariants as group;
ghost use Rattle.tree_meaning.specs.declared.task.StatementTask.TheVariants as task;
ghost use Rattle.tree_meaning.specs.declared.task.Task.TheVariants.{Statement};
ghost use Rattle.c_typed_trees.specs.declared.statement.TypedGroup.{out-TypedGroup};

use crate::agenda::Agenda;
use crate::machine::Machine;
use crate::task::{GroupStage, StatementTask, Task};
use crate::way::{Way, is_on};
use c_typed_trees::TypedGroup;
use fq_core::Span;
use std::alloc::AllocError;

fn is_label(label: Option<u64>, own: Option<u64>) -> bool
    ensures { result ≡ is_label label own }
{
    match label {
        None => own.is_none(),
        Some(v) => match own {
            None => false,
            Some(w) => v == w,
        },
    }
}

fn has_label(label: Option<u64>, labels: &[(Span, Option<u64>)]) -> bool
    ensures { result ≡ has_label label labels.now }
{
    for own in labels {
        if is_label(label, own.1) {
            return true;
        }
    }
    false
}

/// The first group that has a label.
fn group_with(label: Option<u64>, groups: &[TypedGroup]) -> Option<usize>
    ensures within { IfSome result (λ at. at < length groups.now) }
    ensures place { result ≡ position (λ g. has_label label (out-TypedGroup g).labels) groups.now }
{
    groups
        .iter()
        .position(|group| has_label(label, &group.labels))
}

/// The first group that a value leads to, and how many there are where it leads to none.
#[tactic(auto, using(crate::proofs::SwitchSteps::at_laws))]
fn group_at(v: u64, groups: &[TypedGroup]) -> usize
    ensures within { result ≤ length groups.now }
    ensures at { (c : Setting) → groups_at v (map (group_in c) groups.now) ≡ map (group_in c) (drop result groups.now) }
{
    match group_with(Some(v), groups) {
        Some(case) => case,
        None => group_with(None, groups).unwrap_or(groups.len()),
    }
}

/// The groups of a `switch` behind its value: those from the one that the value leads to.
#[tactic(auto, using(crate::proofs::SwitchSteps::find_laws))]
fn find<'a>(
    machine: &mut Machine<'a>,
    tasks: &mut Agenda<'a>,
    groups: &'a [TypedGroup],
) -> Result<(), AllocError>
    requires { FitGroups groups.now }
    ensures { OnOk result (Leads (Statement (task.Groups groups.entry group.Find)) tasks.old machine.old tasks.new machine.new) }
{
    let at = group_at(machine.value, groups);
    let stage = GroupStage::Run;
    machine.way = Way::GoesOn;
    tasks.push(Task::Statement(StatementTask::AfterSwitch))?;
    tasks.push(Task::Statement(StatementTask::Groups(&groups[at..], stage)))
}

/// Groups one after another, as long as each goes on.
#[tactic(auto, using(crate::proofs::SwitchSteps::run_laws))]
fn run<'a>(
    machine: &mut Machine<'a>,
    tasks: &mut Agenda<'a>,
    groups: &'a [TypedGroup],
) -> Result<(), AllocError>
    requires { FitGroups groups.now }
    ensures { OnOk result (Leads (Statement (task.Groups groups.entry group.Run)) tasks.old machine.old tasks.new machine.new) }
{
    if !is_on(machine.way) {
        machine.value = 0;
        return Ok(());
    }
    match groups.split_first() {
        None => {
            machine.value = 0;
            Ok(())
        }
        Some((first, others)) => {
            let stage = GroupStage::Run;
            tasks.push(Task::Statement(StatementTask::Groups(others, stage)))?;
            tasks.push(Task::Statement(StatementTask::Block(&first.body)))
        }
    }
}

/// The groups of a `switch`, from a stage on to the next.
pub(crate) fn groups<'a>(
    machine: &mut Machine<'a>,
    tasks: &mut Agenda<'a>,
    groups: &'a [TypedGroup],
    stage: GroupStage,
) -> Result<(), AllocError>
    requires { FitGroups groups.now }
    ensures { OnOk result (Leads (Statement (task.Groups groups.entry stage)) tasks.old machine.old tasks.new machine.new) }
{
    match stage {
        GroupStage::Find => find(machine, tasks, groups),
        GroupStage::Run => run(machine, tasks, groups),
    }
}

/// A `switch` behind its groups: `break` ends it.
#[tactic(auto, using(crate::proofs::SwitchSteps::after_laws))]
pub(crate) fn after<'a>(machine: &mut Machine<'a>, tasks: &Agenda<'a>)
    ensures { Leads (Statement task.AfterSwitch) tasks.now machine.old tasks.now machine.new }
{
    let way = match machine.way {
        Way::GoesOn => Way::GoesOn,
        Way::Breaks => Way::GoesOn,
        Way::Continues => Way::Continues,
        Way::Returns => Way::Returns,
    };
    machine.leave_off(way);
}
