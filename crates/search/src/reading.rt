// Unit propagation by two watched literals: the queue is the trail's unread rest.
ghost use Rattle.std.specs.Prelude.{◌≡◌, ◌+◌, ◌<◌, ◌≤◌, ◌^◌, Some, IfOk, IsSomeAnd, OnOk, length, neg_ℤ, true, slice_get, false};
ghost use Rattle.std.specs.Ordering.{int_eq};
ghost use Rattle.cnf.specs.Clauses.{has_literal, literal_key as key_of};
ghost use Rattle.cnf.specs.literal_marks.Marks.{marked};
ghost use Rattle.cnf.specs.declared.literal_marks.places.Places.TheVariants.{ByKey};
ghost use Rattle.search.specs.At.{IsAt};
ghost use Rattle.search.specs.Machine.{is_true, unit_of};
ghost use Rattle.search.specs.Readings.{IsImplied, IsLiteralRead, IsQueue, IsRewatched, IsSearching, IsVisit, IsVisiting};
ghost use Rattle.search.specs.Sound.{all_clauses};
ghost use Rattle.search.specs.Visits.{IsLook};
ghost use Rattle.search.specs.Watching.{list_of, watchers_of};

use crate::machine::Machine;
use crate::moves::Step;
use crate::visit::{Look, look_at, partner};
use crate::watching::{
    Pair, Watcher, Watching, add_watcher, remove_watcher, watcher_at, watcher_count,
};
use cnf::literal_marks::{Places, is_marked};
use cnf::{Formula, clause_before, negation};
use fq_core::Memory;
use std::alloc::AllocError;

/// What the visit of a watcher leads to.
#[derive(Clone, Copy)]
pub(crate) enum Visit {
    /// It watches on.
    Stays,
    /// Its clause watches another literal in its place.
    Leaves,
    /// The clause with this number is false.
    Conflict(u32),
    /// A move is wanted, and the budget is spent.
    Spent,
}

/// What reading the queue leads to.
#[derive(Clone, Copy)]
pub(crate) enum Queue {
    Read,
    /// The clause with this number is false.
    Conflict(u32),
    /// A move is wanted, and the budget is spent.
    Spent,
}

// A clause watches the left literal in place of one that became false, beside the right one.
fn rewatch(
    watching: &mut Watching,
    falsified: i32,
    at: usize,
    place: u32,
    left: i32,
    right: i32,
) -> Result<(), AllocError>
    requires room { key_of left < length watching.old.watchers.items }
    requires place { place < length watching.old.pairs.items }
    requires here { slice_get (list_of watching.old.watchers.items falsified) at ≡ Some place }
    requires apart { int_eq left falsified ≡ false }
    ensures { OnOk result (IsRewatched watching.old watching.new falsified at place record { left = left; right = right }) }
{
    let blocker = right;
    add_watcher(&mut watching.watchers, left, Watcher { place, blocker })?;
    remove_watcher(&mut watching.watchers, falsified, at);
    watching.pairs[place as usize] = Pair { left, right };
    Ok(())
}

// What becomes of a clause one of whose watched literals is false, by the other one.
fn look_for(machine: &Machine, formula: &Formula, other: i32, place: u32) -> Look
    requires clause { IsSomeAnd (slice_get (all_clauses formula.now machine.now.learned) place) (λ clause. has_literal clause other ≡ true) }
    requires few { length formula.now.clauses + length machine.now.learned.lines < 2 ^ 32 }
    ensures { IsSomeAnd (slice_get (all_clauses formula.now machine.now.learned) place) (λ clause. IsLook (marked ByKey machine.now.values.items) clause other result) }
{
    let lines = machine.learned.lines.len();
    match clause_before(formula, &machine.learned, lines, place + 1) {
        Some(clause) => look_at(&machine.values, clause, other),
        None => Look::Satisfied,
    }
}

/// Puts the one open literal of a clause on the trail.
pub(crate) fn imply(
    machine: &mut Machine,
    formula: &Formula,
    literal: i32,
    place: u32,
    budget: u64,
) -> Result<Visit, Memory>
    requires at { IsAt formula.now machine.old }
    requires small { formula.now.variables ≤ 2 ^ 30 }
    requires paid { length machine.old.moves.items ≤ budget }
    requires unit { IsSomeAnd (slice_get (all_clauses formula.now machine.old.learned) place) (λ clause. unit_of (is_true machine.old.trail.items) clause ≡ Some literal) }
    ensures { IfOk result (IsImplied formula.now budget machine.old machine.new literal place) }
{
    if machine.moves.len() as u64 >= budget {
        return Ok(Visit::Spent);
    }
    let made = Step::Propagate { clause: place + 1 };
    machine.step(formula, literal, Some(place + 1), made)?;
    Ok(Visit::Stays)
}

// Visits one of the watchers of a literal that became false.
fn visit_at(
    machine: &mut Machine,
    watching: &mut Watching,
    formula: &Formula,
    falsified: i32,
    at: usize,
    budget: u64,
) -> Result<Visit, Memory>
    requires visiting { IsVisiting formula.now budget machine.old watching.old falsified at }
    requires small { formula.now.variables ≤ 2 ^ 30 }
    requires at { at < length (watchers_of watching.old.watchers.items falsified) }
    ensures visit { IfOk result (IsVisit formula.now budget watching.old machine.new watching.new falsified at) }
    ensures head { OnOk result (watching.new.head ≡ watching.old.head) }
    ensures more { OnOk result (length machine.old.moves.items ≤ length machine.new.moves.items) }
{
    let watcher = watcher_at(&watching.watchers, falsified, at);
    if is_marked(&Places::ByKey, &machine.values, watcher.blocker) {
        return Ok(Visit::Stays);
    }
    let place = watcher.place;
    let other = partner(watching.pairs[place as usize], falsified);
    match look_for(machine, formula, other, place) {
        Look::Satisfied => Ok(Visit::Stays),
        Look::Conflict => Ok(Visit::Conflict(place + 1)),
        Look::Unit(literal) => imply(machine, formula, literal, place, budget),
        Look::Other(literal) => {
            rewatch(watching, falsified, at, place, literal, other)?;
            Ok(Visit::Leaves)
        }
    }
}

// Reads one literal of the queue: visits the watchers of its negation, which became false.
fn read_literal(
    machine: &mut Machine,
    watching: &mut Watching,
    formula: &Formula,
    falsified: i32,
    budget: u64,
) -> Result<Queue, Memory>
    requires searching { IsSearching formula.now budget machine.old watching.old }
    requires small { formula.now.variables ≤ 2 ^ 30 }
    requires literal { IsSomeAnd (slice_get machine.old.trail.items watching.old.head) (λ e. neg_ℤ e.literal ≡ falsified) }
    ensures queue { IfOk result (IsLiteralRead formula.now budget watching.old machine.new watching.new) }
    ensures more { OnOk result (length machine.old.moves.items ≤ length machine.new.moves.items) }
{
    let mut at = 0;
    while at < watcher_count(&watching.watchers, falsified) {
        match visit_at(machine, watching, formula, falsified, at, budget)? {
            Visit::Stays => at += 1,
            Visit::Leaves => {}
            Visit::Conflict(number) => return Ok(Queue::Conflict(number)),
            Visit::Spent => return Ok(Queue::Spent),
        }
    }
    watching.head += 1;
    Ok(Queue::Read)
}

/// Reads the queue to its end, or until a clause is false or the budget is spent.
pub(crate) fn propagate(
    machine: &mut Machine,
    watching: &mut Watching,
    formula: &Formula,
    budget: u64,
) -> Result<Queue, Memory>
    requires searching { IsSearching formula.now budget machine.old watching.old }
    requires small { formula.now.variables ≤ 2 ^ 30 }
    ensures queue { IfOk result (IsQueue formula.now budget machine.new watching.new) }
    ensures more { OnOk result (length machine.old.moves.items ≤ length machine.new.moves.items) }
{
    while watching.head < machine.trail.len() {
        let falsified = negation(machine.trail[watching.head].literal);
        match read_literal(machine, watching, formula, falsified, budget)? {
            Queue::Read => {}
            queue => return Ok(queue),
        }
    }
    Ok(Queue::Read)
}
