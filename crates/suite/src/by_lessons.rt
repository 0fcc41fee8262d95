// What lessons of other goals tell of a goal.
ghost use Rattle.std.specs.Prelude.{◌≡◌, ℕ, IfOk};
ghost use Rattle.search_lemmas.specs.Giving.{SaysTheSame};
ghost use Rattle.search.specs.Nexts.{IsEnd};
ghost use Rattle.suite.specs.Seeking.{IsFormulaFor};
ghost use Rattle.suite.specs.Told.{IsTold};

use crate::deciding::made_input;
use crate::sought::Sought;
use c_meaning::Input;
use fq_core::Memory;
use goal_formula::GoalFormula;
use search::{Found, search_lowest_part};
use search_checked::confirm;
use search_lemmas::{Given, Refutation};
use std::alloc::Global;

/// What is told of a goal by lessons.
#[derive(Drop)]
pub(crate) enum Told {
    /// An input whose run within the bounds hits it.
    Covered(Input),
    /// No input at all hits it within the bounds.
    Refuted,
    /// Nothing.
    Open,
}

/// What the end of a search of a goal's formula with lessons tells. A refutation is confirmed, and learned from.
fn told_at_end(
    alloc: Global,
    sought: &mut Sought,
    formula: &GoalFormula,
    given: &Given,
    found: Found,
) -> Result<Told, Memory>
    requires exact { IsFormulaFor sought.old.goal formula.now }
    requires given { SaysTheSame formula.now.formula given.now.formula }
    requires found { (budget : ℕ) × IsEnd given.now.formula budget found }
    ensures told { IfOk result (IsTold sought.old.goal) }
    ensures same { sought.new ≡ sought.old }
{
    match found {
        Found::Model(model) => {
            let input = made_input(alloc, sought, formula, &model)?;
            Ok(Told::Covered(input))
        }
        Found::NoModel(derivation) => {
            confirm(alloc, &given.formula, &derivation)?;
            let refutation = Refutation {
                variable: &formula.variable,
                formula: &given.formula,
                places: &given.places,
                derivation: &derivation,
            };
            sought.learn(alloc, &refutation)?;
            Ok(Told::Refuted)
        }
        Found::Spent(_history) => Ok(Told::Open),
    }
}

/// What a short search of a goal's formula with lessons tells.
fn told_by(
    alloc: Global,
    sought: &mut Sought,
    formula: &GoalFormula,
    given: &Given,
    budget: u64,
) -> Result<Told, Memory>
    requires exact { IsFormulaFor sought.old.goal formula.now }
    requires given { SaysTheSame formula.now.formula given.now.formula }
    ensures told { IfOk result (IsTold sought.old.goal) }
    ensures same { sought.new ≡ sought.old }
{
    match search_lowest_part(alloc, &given.formula, budget)? {
        Some(found) => told_at_end(alloc, sought, formula, given, found),
        None => Ok(Told::Open),
    }
}

/// What lessons tell of a goal, and its formula.
pub(crate) fn told_of(
    alloc: Global,
    sought: &mut Sought,
    budget: u64,
) -> Result<(GoalFormula, Told), Memory>
    ensures exact { IfOk result (λ made. IsFormulaFor sought.old.goal made.0) }
    ensures told { IfOk result (λ made. IsTold sought.old.goal made.1) }
    ensures same { sought.new ≡ sought.old }
{
    let (formula, given) = sought.formula_given(alloc)?;
    match given {
        Some(given) => {
            let told = told_by(alloc, sought, &formula, &given, budget)?;
            Ok((formula, told))
        }
        None => Ok((formula, Told::Open)),
    }
}
