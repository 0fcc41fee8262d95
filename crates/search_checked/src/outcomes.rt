// What a search found of a formula, with its refutation confirmed.
ghost use Rattle.std.specs.Prelude.{◌≤◌, ◌^◌, ℕ, IfOk};
ghost use Rattle.search.specs.Laws.{IsFormula};
ghost use Rattle.search.specs.Nexts.{IsFound};
ghost use Rattle.search_checked.specs.Outcomes.{IsOutcome};

use crate::confirming::confirm;
use crate::known::Outcome;
use cnf::Formula;
use fq_core::Memory;
use search::{Found, search_both};
use std::alloc::Global;

/// What is known by what a search of a formula found: the checker looks at a derivation before it is handed out.
///
/// # Errors
///
/// Those of [`confirm`].
pub fn confirmed(alloc: Global, formula: &Formula, found: Found) -> Result<Outcome, Memory>
    requires variables { formula.now.variables ≤ 2 ^ 30 }
    requires formula { IsFormula formula.now }
    requires found { (budget : ℕ) × IsFound formula.now budget found }
    ensures { (budget : ℕ) → IsFound formula.now budget found
        → IfOk result (IsOutcome formula.now budget) }
{
    match found {
        Found::Model(model) => Ok(Outcome::Model(model)),
        Found::NoModel(derivation) => {
            confirm(alloc, formula, &derivation)?;
            Ok(Outcome::Refuted(derivation))
        }
        Found::Spent(history) => Ok(Outcome::Open(history)),
    }
}

/// What is known of a formula by its searches with a budget of so many moves for each (`search_both`).
///
/// # Errors
///
/// Those of [`confirm`].
pub fn outcome(alloc: Global, formula: &Formula, budget: u64) -> Result<Outcome, Memory>
    requires variables { formula.now.variables ≤ 2 ^ 30 }
    requires formula { IsFormula formula.now }
    ensures { IfOk result (IsOutcome formula.now budget) }
{
    let found = search_both(alloc, formula, budget)?;
    confirmed(alloc, formula, found)
}
