// Searches that begin in one way after the other.
ghost use Rattle.std.specs.Prelude.{◌≤◌, ◌^◌, IfOk, IfSome};
ghost use Rattle.search.specs.Laws.{IsFormula};
ghost use Rattle.search.specs.Nexts.{HasEnded, IsEnd, IsFound};

use crate::beginning::Beginning;
use crate::ending::Ending;
use crate::first_variables::FirstVariables;
use crate::found::Found;
use crate::searching::{found_of, searched};
use cnf::Formula;
use fq_core::Memory;
use std::alloc::Global;

/// With a budget below this one there is one search alone, with the lowest variables first.
const LEAST: u64 = 1000;

/// So many mixtures of signs are tried, each with this part of the budget.
const MIXTURES: u64 = 20;

/// What ends a search within so many moves of a budget, or nothing where they are spent.
fn ended(
    alloc: Global,
    formula: &Formula,
    budget: u64,
    moves: u64,
    beginning: Beginning,
) -> Result<Option<Found>, Memory>
    requires formula { IsFormula formula.now }
    requires small { formula.now.variables ≤ 2 ^ 30 }
    requires within { moves ≤ budget }
    ensures { IfOk result (λ ended. IfSome ended (IsEnd formula.now budget)) }
{
    match searched(alloc, formula, moves, beginning)? {
        Ending::Ended(found) => Ok(Some(found)),
        Ending::Spent { .. } => Ok(None),
    }
}

/// What a fiftieth of a budget finds with the lowest variables first. Nothing is found where it is spent, or the budget is
/// below 1,000.
pub fn search_lowest_part(
    alloc: Global,
    formula: &Formula,
    budget: u64,
) -> Result<Option<Found>, Memory>
    requires formula { IsFormula formula.now }
    requires small { formula.now.variables ≤ 2 ^ 30 }
    ensures { IfOk result (λ found. IfSome found (IsEnd formula.now budget)) }
{
    if budget < LEAST {
        return Ok(None);
    }
    let beginning = Beginning::all_false(FirstVariables::Lowest);
    ended(alloc, formula, budget, budget / 50, beginning)
}

/// What a twentieth of a budget finds with the highest variables first. Nothing is found where it is spent, or the budget is
/// below 1,000.
pub fn search_highest_part(
    alloc: Global,
    formula: &Formula,
    budget: u64,
) -> Result<Option<Found>, Memory>
    requires formula { IsFormula formula.now }
    requires small { formula.now.variables ≤ 2 ^ 30 }
    ensures { IfOk result (λ found. IfSome found (IsEnd formula.now budget)) }
{
    if budget < LEAST {
        return Ok(None);
    }
    let beginning = Beginning::all_false(FirstVariables::Highest);
    ended(alloc, formula, budget, budget / 20, beginning)
}

// What parts of a budget find with the signs mixed: a twentieth in each mixture, one after the other. Nothing is found where
// all are spent, or a part has fewer moves than the formula variables.
fn mixed_ended(alloc: Global, formula: &Formula, budget: u64) -> Result<Option<Found>, Memory>
    requires formula { IsFormula formula.now }
    requires small { formula.now.variables ≤ 2 ^ 30 }
    ensures { IfOk result (λ found. IfSome found (IsEnd formula.now budget)) }
{
    let moves = budget / MIXTURES;
    if moves < u64::from(formula.variables) {
        return Ok(None);
    }
    for number in 1..=MIXTURES {
        if let Some(found) = ended(alloc, formula, budget, moves, Beginning::mixed(number))? {
            return Ok(Some(found));
        }
    }
    Ok(None)
}

// What is found where the whole budget was spent with the lowest variables first: the whole budget with the highest first, and
// then parts of it with mixed signs. Nothing is found where all are spent, or the budget is below 1,000.
fn ended_otherwise(alloc: Global, formula: &Formula, budget: u64) -> Result<Option<Found>, Memory>
    requires formula { IsFormula formula.now }
    requires small { formula.now.variables ≤ 2 ^ 30 }
    ensures { IfOk result (λ found. IfSome found (IsEnd formula.now budget)) }
{
    if budget < LEAST {
        return Ok(None);
    }
    let highest = Beginning::all_false(FirstVariables::Highest);
    match ended(alloc, formula, budget, budget, highest)? {
        Some(found) => Ok(Some(found)),
        None => mixed_ended(alloc, formula, budget),
    }
}

/// What the whole budget finds with the lowest variables first, and where it is spent, with the highest first, and where that
/// is spent too, what twenty parts of it find with mixed signs. Nothing is found where all are spent. With a budget below 1,000
/// there is the first search alone. No history is made.
pub fn search_ends(alloc: Global, formula: &Formula, budget: u64) -> Result<Option<Found>, Memory>
    requires formula { IsFormula formula.now }
    requires small { formula.now.variables ≤ 2 ^ 30 }
    ensures { IfOk result (λ found. IfSome found (IsEnd formula.now budget)) }
{
    let lowest = Beginning::all_false(FirstVariables::Lowest);
    match ended(alloc, formula, budget, budget, lowest)? {
        Some(found) => Ok(Some(found)),
        None => ended_otherwise(alloc, formula, budget),
    }
}

// What `search_ends` finds. The history of the first search is made when all others are spent as well, that of another never.
fn found_whole(alloc: Global, formula: &Formula, budget: u64) -> Result<Found, Memory>
    requires formula { IsFormula formula.now }
    requires small { formula.now.variables ≤ 2 ^ 30 }
    ensures { IfOk result (IsFound formula.now budget) }
{
    let beginning = Beginning::all_false(FirstVariables::Lowest);
    let lowest = searched(alloc, formula, budget, beginning)?;
    if !matches!(&lowest, Ending::Spent { .. }) {
        return found_of(alloc, lowest);
    }
    match ended_otherwise(alloc, formula, budget)? {
        Some(found) => Ok(found),
        None => found_of(alloc, lowest),
    }
}

/// Searches a model of a formula with the lowest variables first, and where the budget is spent, with the highest first, and
/// then with mixed signs: a model, a derivation that shows that there is none, or, where all searches are spent, all the moves
/// of the first one. A budget of 3 to the number of the formula's variables is never spent. With a budget below 1,000 there is
/// the first search alone.
pub fn search_whole(alloc: Global, formula: &Formula, budget: u64) -> Result<Found, Memory>
    requires formula { IsFormula formula.now }
    requires small { formula.now.variables ≤ 2 ^ 30 }
    ensures found { IfOk result (IsFound formula.now budget) }
    ensures enough { 3 ^ formula.now.variables ≤ budget → IfOk result HasEnded }
{
    found_whole(alloc, formula, budget)
}

/// What parts of the budget find (`search_lowest_part`, and then `search_highest_part`), and else the whole one
/// (`search_whole`).
pub fn search_both(alloc: Global, formula: &Formula, budget: u64) -> Result<Found, Memory>
    requires formula { IsFormula formula.now }
    requires small { formula.now.variables ≤ 2 ^ 30 }
    ensures found { IfOk result (IsFound formula.now budget) }
    ensures enough { 3 ^ formula.now.variables ≤ budget → IfOk result HasEnded }
{
    if let Some(found) = search_lowest_part(alloc, formula, budget)? {
        return Ok(found);
    }
    match search_highest_part(alloc, formula, budget)? {
        Some(found) => Ok(found),
        None => search_whole(alloc, formula, budget),
    }
}
