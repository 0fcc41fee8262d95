// Rounds of the search: the queue is read, and then a clause is learned or a literal decided.
ghost use Rattle.std.specs.Prelude.{◌≡◌, ◌+◌, ◌<◌, ◌≤◌, ◌^◌, Some, IfOk, OnOk, length};
ghost use Rattle.search.specs.Conflicts.{IsConflicting};
ghost use Rattle.search.specs.Lessons.{IsLesson};
ghost use Rattle.search.specs.Readings.{IsSearching};
ghost use Rattle.search.specs.Rounds.{IsRound};
ghost use Rattle.search.specs.Sound.{all_clauses};

use crate::landing::Landing;
use crate::machine::Machine;
use crate::moves::Step;
use crate::reading::{Queue, propagate};
use crate::watching::{Pair, Watching, watch_pair};
use cnf::{DerivationLine, Formula};
use fq_core::Memory;
use std::alloc::Global;

/// What a round leads to.
#[derive(Debug, Drop)]
pub(crate) enum Round {
    Went,
    /// All variables stand on the trail.
    Model,
    /// A line whose clause is empty.
    Refuted(DerivationLine),
    Spent,
}

// Decides the first open variable in the order of decisions to be as it last was, where the queue is read.
fn decide(
    machine: &mut Machine,
    watching: &Watching,
    formula: &Formula,
    budget: u64,
) -> Result<Round, Memory>
    requires searching { IsSearching formula.now budget machine.old watching.now }
    requires small { formula.now.variables ≤ 2 ^ 30 }
    requires read { length machine.old.trail.items ≤ watching.now.head }
    ensures { IfOk result (IsRound formula.now budget machine.old machine.new watching.now) }
{
    match machine.next_open(formula) {
        None => Ok(Round::Model),
        Some(literal) => {
            if machine.moves.len() as u64 >= budget {
                return Ok(Round::Spent);
            }
            machine.step(formula, literal, None, Step::Decide { literal })?;
            Ok(Round::Went)
        }
    }
}

// Cuts the trail where a learned line has one open literal, and puts it on the trail.
fn jump_back(
    machine: &mut Machine,
    watching: &mut Watching,
    formula: &Formula,
    line: DerivationLine,
    landing: Landing,
    budget: u64,
) -> Result<(), Memory>
    requires searching { IsSearching formula.now budget machine.old watching.old }
    requires small { formula.now.variables ≤ 2 ^ 30 }
    requires conflict { IsConflicting formula.now machine.old line.first }
    requires lesson { IsLesson (all_clauses formula.now machine.old.learned) machine.old.trail.items line.first line (Some landing) }
    requires paid { length machine.old.moves.items < budget }
    ensures searching { OnOk result (IsSearching formula.now budget machine.new watching.new) }
    ensures moves { OnOk result (length machine.new.moves.items ≡ length machine.old.moves.items + 1) }
{
    let literal = landing.literal;
    let count = (formula.clauses.len() + machine.learned.lines.len()) as u32;
    machine.jump(formula, line, landing.cut, literal)?;
    watching.head = landing.cut;
    match landing.other {
        Some(other) => watch_pair(watching, count, literal, other)?,
        None => {
            let pair = Pair {
                left: literal,
                right: literal,
            };
            watching.pairs.push(pair)?;
        }
    }
    Ok(())
}

// Learns from a clause that is false.
fn learn(
    alloc: Global,
    machine: &mut Machine,
    watching: &mut Watching,
    formula: &Formula,
    conflict: u32,
    budget: u64,
) -> Result<Round, Memory>
    requires searching { IsSearching formula.now budget machine.old watching.old }
    requires small { formula.now.variables ≤ 2 ^ 30 }
    requires conflict { IsConflicting formula.now machine.old conflict }
    ensures { IfOk result (IsRound formula.now budget machine.old machine.new watching.new) }
{
    let lesson = machine.analyze(alloc, formula, conflict)?;
    let line = lesson.line;
    match lesson.landing {
        None => Ok(Round::Refuted(line)),
        Some(landing) => {
            if machine.moves.len() as u64 >= budget {
                return Ok(Round::Spent);
            }
            jump_back(machine, watching, formula, line, landing, budget)?;
            Ok(Round::Went)
        }
    }
}

/// One round.
pub(crate) fn next_round(
    alloc: Global,
    machine: &mut Machine,
    watching: &mut Watching,
    formula: &Formula,
    budget: u64,
) -> Result<Round, Memory>
    requires searching { IsSearching formula.now budget machine.old watching.old }
    requires small { formula.now.variables ≤ 2 ^ 30 }
    ensures { IfOk result (IsRound formula.now budget machine.old machine.new watching.new) }
{
    match propagate(machine, watching, formula, budget)? {
        Queue::Read => decide(machine, watching, formula, budget),
        Queue::Conflict(number) => learn(alloc, machine, watching, formula, number, budget),
        Queue::Spent => Ok(Round::Spent),
    }
}
