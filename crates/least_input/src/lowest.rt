// The least model of a goal's formula, by the bits of inputs in the order in which they decide.
ghost use Rattle.std.specs.Prelude.{◌≡◌, [], ◌<◌, ◌≤◌, ◌^◌, All, IfOk, take};
ghost use Rattle.goal_formula.specs.Bits.{AreInputsOver};
ghost use Rattle.search.specs.Laws.{IsFormula};
ghost use Rattle.search.specs.Nexts.{IsModel};
ghost use Rattle.least_input.specs.Parts.{AreLowered, IsDescent, IsLowestOf};

use crate::descent::{Descent, lower};
use crate::least::Fixed;
use crate::order::variables_in_order;
use cnf::Formula;
use containers::Vector;
use fq_core::Memory;
use goal_formula::GoalFormula;
use search::History;
use std::alloc::Global;

/// The least model of a goal's formula, or where the search of it spent its budget.
#[derive(Drop)]
pub(crate) enum Lowest {
    /// The formula, its least model, and what shows of each bit that is 1 that it can't be 0.
    Model {
        formula: GoalFormula,
        model: Vector<bool>,
        fixed: Vector<Fixed>,
    },
    /// The formula with unit clauses at its end, and the moves of its search.
    Spent {
        formula: Formula,
        history: History,
    },
}

/// A formula with the first so many of its clauses.
fn cut(formula: Formula, count: usize) -> Formula
    ensures { result ≡ record formula { clauses = take count formula.clauses } }
{
    let Formula { variables, clauses } = formula;
    let mut clauses = clauses.into_vec();
    clauses.truncate(count);
    Formula {
        variables,
        clauses: Vector::from_vec(clauses),
    }
}

/// Sets these variables in turn, each to 0 where that can be. Answers the moves of a search that spent its budget, if one did.
fn lower_all(
    alloc: Global,
    descent: &mut Descent,
    variables: &[u32],
    budget: u64,
) -> Result<Option<History>, Memory>
    requires begun { IsDescent descent.old.formula budget [] descent.old }
    requires small { descent.old.formula.variables ≤ 2 ^ 30 }
    requires variables { All (λ n. (0 < n) × (n ≤ descent.old.formula.variables)) variables.now }
    ensures { IfOk result (AreLowered descent.old.formula budget variables.now descent.new) }
{
    for variable in variables {
        if let Some(history) = lower(alloc, descent, *variable, budget)? {
            return Ok(Some(history));
        }
    }
    Ok(None)
}

/// The least model of a goal's formula, from any model.
pub(crate) fn lowest_model(
    alloc: Global,
    whole: GoalFormula,
    model: Vector<bool>,
    budget: u64,
) -> Result<Lowest, Memory>
    requires small { whole.formula.variables ≤ 2 ^ 30 }
    requires over { IsFormula whole.formula }
    requires inputs { AreInputsOver whole }
    requires model { IsModel whole.formula model }
    ensures { IfOk result (IsLowestOf whole budget) }
{
    let variables = variables_in_order(alloc, &whole)?;
    let GoalFormula {
        formula,
        variable,
        words,
        answers,
    } = whole;
    let count = formula.clauses.len();
    let mut descent = Descent {
        formula,
        units: Vector::new(alloc),
        model,
        fixed: Vector::new(alloc),
    };
    let spent = lower_all(alloc, &mut descent, &variables, budget)?;
    let Descent {
        formula,
        units: _units,
        model,
        fixed,
    } = descent;
    match spent {
        Some(history) => Ok(Lowest::Spent { formula, history }),
        None => Ok(Lowest::Model {
            formula: GoalFormula {
                formula: cut(formula, count),
                variable,
                words,
                answers,
            },
            model,
            fixed,
        }),
    }
}
