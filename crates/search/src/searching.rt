// The search.
ghost use Rattle.std.specs.Prelude.{◌≤◌, ◌^◌, ℕ, IfOk};
ghost use Rattle.cnf.specs.declared.formula.Formula.{Formula as FormulaValue};
ghost use Rattle.search.specs.Endings.{IsEnding};
ghost use Rattle.search.specs.Laws.{IsFormula};
ghost use Rattle.search.specs.Nexts.{HasEnded, IsFound};

use crate::beginning::Beginning;
use crate::ending::Ending;
use crate::first_variables::FirstVariables;
use crate::found::Found;
use crate::history::history_of;
use crate::installing::{install_all, nothing_watched};
use crate::machine::Machine;
use crate::reading::Queue;
use crate::rounds::{Round, next_round};
use cnf::Formula;
use fq_core::Memory;
use std::alloc::Global;

/// How a search ends. Its history isn't made yet.
pub(crate) fn searched(
    alloc: Global,
    formula: &Formula,
    budget: u64,
    beginning: Beginning,
) -> Result<Ending, Memory>
    requires formula { IsFormula formula.now }
    requires small { formula.now.variables ≤ 2 ^ 30 }
    ensures { IfOk result (IsEnding formula.now budget) }
{
    // Clauses are numbered in 32 bits.
    if formula.clauses.len() >= 0x1_0000_0000 {
        return Err(Memory);
    }
    let mut machine = Machine::new(alloc, formula, beginning)?;
    let mut watching = nothing_watched(alloc, formula.variables)?;
    match install_all(&mut machine, &mut watching, formula, budget)? {
        Queue::Read => {}
        Queue::Conflict(number) => {
            return Ok(Ending::Ended(machine.contradicted(alloc, formula, number)?));
        }
        Queue::Spent => return machine.end(alloc, formula),
    }
    for _ in 0..budget {
        match next_round(alloc, &mut machine, &mut watching, formula, budget)? {
            Round::Went => {}
            Round::Model => return Ok(Ending::Ended(machine.satisfied(alloc, formula)?)),
            Round::Refuted(line) => return Ok(Ending::Ended(machine.refuted(formula, line)?)),
            Round::Spent => return machine.end(alloc, formula),
        }
    }
    machine.end(alloc, formula)
}

/// What a search that ended so finds. Where it is spent, its history is made.
pub(crate) fn found_of(alloc: Global, ending: Ending) -> Result<Found, Memory>
    requires is { (formula : FormulaValue) × ((budget : ℕ) × IsEnding formula budget ending) }
    ensures { (formula : FormulaValue) (budget : ℕ) → IsEnding formula budget ending → IfOk result (IsFound formula budget) }
{
    match ending {
        Ending::Ended(found) => Ok(found),
        Ending::Spent { steps, lines } => Ok(Found::Spent(history_of(alloc, steps, lines)?)),
    }
}

// What a search finds.
fn found_in_order(
    alloc: Global,
    formula: &Formula,
    budget: u64,
    first: FirstVariables,
) -> Result<Found, Memory>
    requires formula { IsFormula formula.now }
    requires small { formula.now.variables ≤ 2 ^ 30 }
    ensures { IfOk result (IsFound formula.now budget) }
{
    let ending = searched(alloc, formula, budget, Beginning::all_false(first))?;
    found_of(alloc, ending)
}

/// Searches a model of a formula with at most so many moves: a model, a derivation that shows that there is none, or,
/// where the budget is spent, all the moves. A budget of 3 to the number of the formula's variables is never spent.
///
/// Of the variables that were never active in a conflict the `first` ones are decided before the others: what is found
/// within a budget, and how soon, may depend on it, and nothing else does.
pub fn search_in_order(
    alloc: Global,
    formula: &Formula,
    budget: u64,
    first: FirstVariables,
) -> Result<Found, Memory>
    requires formula { IsFormula formula.now }
    requires small { formula.now.variables ≤ 2 ^ 30 }
    ensures found { IfOk result (IsFound formula.now budget) }
    ensures enough { 3 ^ formula.now.variables ≤ budget → IfOk result HasEnded }
{
    found_in_order(alloc, formula, budget, first)
}

/// Searches a model of a formula with at most so many moves: a model, a derivation that shows that there is none, or,
/// where the budget is spent, all the moves. A budget of 3 to the number of the formula's variables is never spent. The
/// lowest variables are decided first of those that were never active in a conflict.
pub fn search(alloc: Global, formula: &Formula, budget: u64) -> Result<Found, Memory>
    requires formula { IsFormula formula.now }
    requires small { formula.now.variables ≤ 2 ^ 30 }
    ensures found { IfOk result (IsFound formula.now budget) }
    ensures enough { 3 ^ formula.now.variables ≤ budget → IfOk result HasEnded }
{
    search_in_order(alloc, formula, budget, FirstVariables::Lowest)
}
