// The rounds before goals are answered.
ghost use Rattle.std.specs.Prelude.{◌≡◌, ◌<◌, ℕ, IfOk, IfSome};
ghost use Rattle.suite.specs.Progress.{AreSmall};
ghost use Rattle.suite.specs.Seeking.{IsDecidedAt, IsOfSame};

use crate::by_lessons::{Told, told_of};
use crate::decided::Decided;
use crate::deciding::{found_by_parts, found_late};
use crate::pool::LEAST;
use crate::sought::Sought;
use fq_core::Memory;
use search_lemmas::Refutation;
use std::alloc::Global;

/// A round over all goals.
#[derive(Clone, Copy)]
pub(crate) enum Round {
    /// Tries what is cheap.
    Early,
    /// Tries the whole search.
    Late,
}

/// Keeps what was found of a goal: an input that was made for it goes to the pool, unless one is there that hits it, and where
/// none hits it, that is noted, and the refutation is learned from.
fn keep(alloc: Global, sought: &mut Sought, found: Decided) -> Result<(), Memory>
    requires { (budget : ℕ) × IsDecidedAt sought.old.goal budget found }
    ensures { sought.new ≡ sought.old }
{
    match found {
        Decided::Covered(input) => {
            if sought.is_closed() {
                return Ok(());
            }
            sought.add_input(alloc, input)
        }
        Decided::Refuted {
            formula,
            derivation,
        } => {
            let refutation = Refutation {
                variable: &formula.variable,
                formula: &formula.formula,
                places: &[],
                derivation: &derivation,
            };
            sought.learn(alloc, &refutation)?;
            sought.refute();
            Ok(())
        }
        Decided::Undecided {
            formula: _formula,
            history: _history,
        } => Ok(()),
    }
}

/// Keeps what was found of a goal, if anything was.
fn keep_some(alloc: Global, sought: &mut Sought, found: Option<Decided>) -> Result<(), Memory>
    requires { (budget : ℕ) × IfSome found (IsDecidedAt sought.old.goal budget) }
    ensures { sought.new ≡ sought.old }
{
    match found {
        Some(decided) => keep(alloc, sought, decided),
        None => Ok(()),
    }
}

/// Tries what is cheap of a goal: first by the lessons of others.
fn try_early(alloc: Global, sought: &mut Sought, budget: u64) -> Result<(), Memory>
    ensures { sought.new ≡ sought.old }
{
    let (formula, told) = told_of(alloc, sought, budget)?;
    match told {
        Told::Covered(input) => keep(alloc, sought, Decided::Covered(input)),
        Told::Refuted => {
            sought.refute();
            Ok(())
        }
        Told::Open => {
            let found = found_by_parts(alloc, sought, formula, budget)?;
            keep_some(alloc, sought, found)
        }
    }
}

/// Tries the whole search of a goal.
fn try_late(alloc: Global, sought: &mut Sought, budget: u64) -> Result<(), Memory>
    ensures { sought.new ≡ sought.old }
{
    let found = found_late(alloc, sought, budget)?;
    keep_some(alloc, sought, found)
}

/// Tries a goal, where it is open.
fn try_goal(alloc: Global, sought: &mut Sought, budget: u64, round: Round) -> Result<(), Memory>
    ensures { sought.new ≡ sought.old }
{
    if sought.is_closed() {
        return Ok(());
    }
    match round {
        Round::Early => try_early(alloc, sought, budget),
        Round::Late => try_late(alloc, sought, budget),
    }
}

/// Whether a round is of use: with a budget below 1,000 none is, and the whole search is tried where several goals are open, so
/// that an input that it finds for one of them covers each that it hits.
fn is_due(sought: &Sought, budget: u64, round: Round) -> bool {
    budget >= LEAST && (matches!(round, Round::Early) || sought.are_several_open())
}

/// Fewer goals than these are tried in their order.
const MANY: u32 = 256;

/// How long the rows are in which many goals are tried: the least number whose square is as many, or 100.
fn row_of(count: u32) -> u32 {
    for width in 1..100u32 {
        if width.wrapping_mul(width) >= count {
            return width;
        }
    }
    100
}

/// The place of the goal that is tried at a turn. Many goals are tried in rows, the last row first: where they are the pairs of
/// some edges, the pairs of neighbours come before those farther apart, which follow from what these teach.
fn place_at(turn: u32, count: u32, width: u32) -> u32
    requires { turn < count }
    ensures { result < count }
{
    if count < MANY || width == 0 {
        return turn;
    }
    let rows = count / width;
    let row = turn / width;
    if row >= rows {
        return turn;
    }
    let below = rows - row - 1;
    let place = below.wrapping_mul(width).wrapping_add(turn % width);
    if place < count { place } else { turn }
}

/// Tries each goal that is open in a round.
pub(crate) fn try_all(
    alloc: Global,
    sought: &mut Sought,
    budget: u64,
    round: Round,
) -> Result<(), Memory>
    requires { AreSmall sought.old.goal.given.now.planned.plan sought.old.pairs }
    ensures { IsOfSame sought.old sought.new }
{
    if !is_due(sought, budget, round) {
        return Ok(());
    }
    let count = sought.goal_count();
    let width = row_of(count);
    for turn in 0..count {
        let place = place_at(turn, count, width);
        sought.turn_to(place + 1);
        try_goal(alloc, sought, budget, round)?;
    }
    sought.set_spent(matches!(round, Round::Late));
    Ok(())
}
