// Bounds that suffice.
ghost use Rattle.std.specs.Prelude.{◌≤◌, ◌^◌, IfErr, IfOk};
ghost use Rattle.bounds_check.specs.Bounded.{CannotUnwind, IsExactFor, IsOpenFor, IsSufficeFor, IsWithin};

use crate::bounded::Bounded;
use crate::leaving::left_input;
use crate::staying::open_formula;
use crate::suffice::Suffice;
use c_meaning::Ends;
use cfa::Predicates;
use containers::Vector;
use fq_core::{Fault, Memory};
use goal_formula::GoalFormula;
use search_checked::{Outcome, outcome};
use std::alloc::Global;
use unwinder::unwind;

/// What the search of the formula finds.
fn searched(
    alloc: Global,
    bounded: &Bounded,
    formula: GoalFormula,
    budget: u64,
) -> Result<Suffice, Memory>
    requires exact { IsExactFor bounded.now formula }
    requires small { formula.formula.variables ≤ 2 ^ 30 }
    ensures { IfOk result (IsSufficeFor bounded.now budget) }
{
    match outcome(alloc, &formula.formula, budget)? {
        Outcome::Model(model) => {
            let entry = bounded.entry;
            entry.graph.well_formed();
            let input = left_input(alloc, &formula, &model, &entry.function.parameters)?;
            Ok(Suffice::Left(input))
        }
        Outcome::Refuted(derivation) => Ok(Suffice::Yes {
            formula: formula.formula,
            derivation,
        }),
        Outcome::Open(history) => Ok(Suffice::Open {
            formula: formula.formula,
            history,
        }),
    }
}

/// The formula of the inputs that leave the bounds.
pub(crate) fn leaving_formula(alloc: Global, bounded: &Bounded) -> Result<GoalFormula, Fault>
    ensures exact { IfOk result (IsExactFor bounded.now) }
    ensures small { IfOk result (λ formula. formula.formula.variables ≤ 2 ^ 30) }
    ensures limits { IfOk result (λ _. IsWithin bounded.now) }
    ensures refused { IfErr result (CannotUnwind bounded.now) }
{
    let none = Predicates {
        texts: Vector::new(alloc),
        meanings: Vector::new(alloc),
    };
    let entry = bounded.entry;
    let unwound = unwind(
        alloc,
        entry.graph,
        entry.number,
        &none,
        bounded.bounds,
        Ends::Any,
    )?;
    entry.graph.well_formed();
    match open_formula(alloc, unwound, &entry.function.parameters) {
        Ok(formula) => Ok(formula),
        Err(Memory) => Err(Fault::Memory),
    }
}

/// Whether bounds suffice for a function: no input of it, with any words and any number of answers, has a run that leaves
/// them, ending or not. The search has a budget of so many moves.
///
/// The runs of all inputs are unwound within the bounds, so that any end counts. An input leaves the bounds exactly where no
/// entry that holds in its world has ended there, and that is made a formula, which is searched. Where there is no model the
/// checker looks at the derivation, and no input leaves the bounds: then a goal that is refuted within them is unreachable. A
/// certificate can write the formula and the derivation. An input that is found leaves the bounds; its words are values of
/// their kinds, and it has at most as many answers as the bounds, the last of them not 0. The answer is open only where the
/// search made as many moves as the budget allows and isn't finished, and only with a budget below 3 to the most variables of
/// the formula.
///
/// # Errors
///
/// Codes 80 and 81 are those of the unwinding, without predicates. Each comes wherever it is so, unless memory runs out first.
pub fn bounds_suffice(alloc: Global, bounded: &Bounded, budget: u64) -> Result<Suffice, Fault>
    ensures suffice { IfOk result (IsSufficeFor bounded.now budget) }
    ensures enough { IfOk result (IsOpenFor bounded.now budget) }
    ensures limits { IfOk result (λ _. IsWithin bounded.now) }
    ensures refused { IfErr result (CannotUnwind bounded.now) }
{
    let formula = leaving_formula(alloc, bounded)?;
    match searched(alloc, bounded, formula, budget) {
        Ok(suffice) => Ok(suffice),
        Err(Memory) => Err(Fault::Memory),
    }
}
