// The formula's clauses get their watched literals. Those of one literal go on the trail.
ghost use Rattle.std.specs.Prelude.{◌≡◌, ◌+◌, ◌*◌, ◌<◌, ◌≤◌, ◌^◌, ◌∷◌, [], ℤ, Some, IfOk, length, slice_get};
ghost use Rattle.search.specs.Installs.{IsInstalled, IsInstalling, IsMade, IsPrepared};
ghost use Rattle.search.specs.Watching.{watchers_of};

use crate::machine::Machine;
use crate::reading::{Queue, Visit, imply};
use crate::status::is_false;
use crate::watching::{Pair, Watching, no_watchers, watch_pair};
use cnf::Formula;
use cnf::literal_marks::{Places, is_marked};
use fq_core::Memory;
use std::alloc::{AllocError, Global};

/// Nothing is watched yet.
pub(crate) fn nothing_watched(alloc: Global, variables: u32) -> Result<Watching, AllocError>
    ensures lists { IfOk result (λ w. length w.watchers.items ≡ 2 * variables + 2) }
    ensures none { IfOk result (λ w. (x : ℤ) → watchers_of w.watchers.items x ≡ []) }
    ensures pairs { IfOk result (λ w. w.pairs.items ≡ []) }
    ensures head { IfOk result (λ w. w.head ≡ 0) }
{
    let watchers = no_watchers(alloc, 2 * variables as usize + 2)?;
    Ok(Watching {
        watchers,
        pairs: Vec::new(alloc),
        head: 0,
    })
}

// Makes the one literal of a clause true.
fn make_true(
    machine: &mut Machine,
    watching: &Watching,
    formula: &Formula,
    literal: i32,
    place: u32,
    budget: u64,
) -> Result<Visit, Memory>
    requires installing { IsInstalling formula.now budget machine.old watching.now place }
    requires small { formula.now.variables ≤ 2 ^ 30 }
    requires clause { slice_get formula.now.clauses place ≡ Some (literal ∷ []) }
    ensures { IfOk result (IsMade formula.now budget machine.new watching.now literal place) }
{
    if is_marked(&Places::ByKey, &machine.values, literal) {
        return Ok(Visit::Stays);
    }
    if is_false(&machine.values, literal) {
        return Ok(Visit::Conflict(place + 1));
    }
    imply(machine, formula, literal, place, budget)
}

// A clause of one literal.
fn install_one(
    machine: &mut Machine,
    watching: &mut Watching,
    formula: &Formula,
    literal: i32,
    place: u32,
    budget: u64,
) -> Result<Visit, Memory>
    requires installing { IsInstalling formula.now budget machine.old watching.old place }
    requires small { formula.now.variables ≤ 2 ^ 30 }
    requires clause { slice_get formula.now.clauses place ≡ Some (literal ∷ []) }
    ensures { IfOk result (IsInstalled formula.now budget machine.new watching.new place) }
{
    match make_true(machine, watching, formula, literal, place, budget)? {
        Visit::Stays => {
            let pair = Pair {
                left: literal,
                right: literal,
            };
            watching.pairs.push(pair)?;
            Ok(Visit::Stays)
        }
        visit => Ok(visit),
    }
}

// One clause.
fn install(
    machine: &mut Machine,
    watching: &mut Watching,
    formula: &Formula,
    place: u32,
    budget: u64,
) -> Result<Visit, Memory>
    requires installing { IsInstalling formula.now budget machine.old watching.old place }
    requires small { formula.now.variables ≤ 2 ^ 30 }
    requires place { place < length formula.now.clauses }
    ensures { IfOk result (IsInstalled formula.now budget machine.new watching.new place) }
{
    match formula.clauses[place as usize].literals() {
        [] => Ok(Visit::Conflict(place + 1)),
        [literal] => install_one(machine, watching, formula, *literal, place, budget),
        [first, second, ..] => {
            watch_pair(watching, place, *first, *second)?;
            Ok(Visit::Stays)
        }
    }
}

/// All clauses.
pub(crate) fn install_all(
    machine: &mut Machine,
    watching: &mut Watching,
    formula: &Formula,
    budget: u64,
) -> Result<Queue, Memory>
    requires installing { IsInstalling formula.now budget machine.old watching.old 0 }
    requires small { formula.now.variables ≤ 2 ^ 30 }
    requires few { length formula.now.clauses < 2 ^ 32 }
    ensures { IfOk result (IsPrepared formula.now budget machine.new watching.new) }
{
    let count = formula.clauses.len() as u32;
    for place in 0..count {
        match install(machine, watching, formula, place, budget)? {
            Visit::Stays => {}
            Visit::Leaves => {}
            Visit::Conflict(number) => return Ok(Queue::Conflict(number)),
            Visit::Spent => return Ok(Queue::Spent),
        }
    }
    Ok(Queue::Read)
}
