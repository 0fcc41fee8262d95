// The least input of a goal, found by the bits of inputs in the order in which they decide.
ghost use Rattle.std.specs.Prelude.{◌≡◌, IfOk};
ghost use Rattle.search.specs.Nexts.{IsModel};
ghost use Rattle.least_input.specs.AtGoal.{IsAnsweredAt, IsOpenAt};
ghost use Rattle.suite.specs.Seeking.{IsFormulaFor};

use crate::input::numbers_of;
use crate::least::Least;
use crate::lowest::{Lowest, lowest_model};
use containers::Vector;
use fq_core::Memory;
use goal_formula::GoalFormula;
use search_checked::{Outcome, outcome};
use std::alloc::Global;
use suite::Sought;
use suite_problem::Goal;

/// What is found from any model of a goal's formula.
fn descended(
    alloc: Global,
    goal: Goal,
    whole: GoalFormula,
    model: Vector<bool>,
    budget: u64,
) -> Result<Least, Memory>
    requires whole { IsFormulaFor goal whole }
    requires model { IsModel whole.formula model }
    ensures { IfOk result (IsAnsweredAt goal.entry budget) }
{
    match lowest_model(alloc, whole, model, budget)? {
        Lowest::Spent { formula, history } => Ok(Least::Open { formula, history }),
        Lowest::Model {
            formula,
            model,
            fixed,
        } => {
            let entry = goal.given.planned.entry;
            entry.graph.well_formed();
            let input = numbers_of(alloc, &formula, &model, &entry.function.parameters)?;
            Ok(Least::Found {
                input,
                formula,
                fixed,
            })
        }
    }
}

/// What is found of a goal by its formula.
fn searched(alloc: Global, goal: Goal, whole: GoalFormula, budget: u64) -> Result<Least, Memory>
    requires { IsFormulaFor goal whole }
    ensures { IfOk result (IsAnsweredAt goal.entry budget) }
{
    match outcome(alloc, &whole.formula, budget)? {
        Outcome::Model(model) => descended(alloc, goal, whole, model, budget),
        Outcome::Refuted(derivation) => Ok(Least::Refuted {
            formula: whole,
            derivation,
        }),
        Outcome::Open(history) => {
            let GoalFormula {
                formula,
                variable: _variable,
                words: _words,
                answers: _answers,
            } = whole;
            Ok(Least::Open { formula, history })
        }
    }
}

/// Finds the least input whose run within the bounds hits a goal that is sought, with a budget of so many moves for each search.
///
/// Inputs compare by their words, and then by their answers, 0 past the list, as many as the bounds allow, each as an unsigned
/// number of 64 bits; the first difference decides. The input that is found has a run within the bounds that hits the goal,
/// and no input at all that compares less has one. With it comes, for each of its bits that is 1, a derivation that shows that
/// the bit can't be 0 while those before it are as they are. A certificate can write each derivation with its formula. A goal
/// is refuted, or stays open, as where it is decided: open only where a search made as many moves as the budget allows and
/// isn't finished, and only with a budget below 3 to the most variables of its formula.
///
/// The bits are set one by one, from the first word's highest on. One that is 0 in the last model that was found costs no
/// search.
///
/// # Errors
///
/// Want of memory alone.
pub fn find_least(alloc: Global, sought: &mut Sought, budget: u64) -> Result<Least, Memory>
    ensures answered { IfOk result (IsAnsweredAt sought.old.goal budget) }
    ensures enough { IfOk result (IsOpenAt sought.old.goal budget) }
    ensures same { sought.new ≡ sought.old }
{
    let goal = sought.goal();
    let whole = sought.formula(alloc)?;
    searched(alloc, goal, whole, budget)
}
