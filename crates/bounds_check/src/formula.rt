// The formula of the inputs that leave bounds, made anew.
ghost use Rattle.std.specs.Prelude.{◌≤◌, ◌^◌, IfErr, IfOk};
ghost use Rattle.bounds_check.specs.Bounded.{CannotUnwind, IsFormulaFor, IsWithin};

use crate::bounded::Bounded;
use crate::sufficing::leaving_formula;
use cnf::Formula;
use fq_core::Fault;
use std::alloc::Global;

/// The formula whose models are the inputs that leave the bounds, with any words and any number of answers: the one that
/// [`bounds_suffice`](crate::bounds_suffice) searches. A derivation that checks over it shows that no input leaves them.
///
/// # Errors
///
/// Codes 80 and 81 are those of the unwinding, without predicates. Each comes wherever it is so, unless memory runs out first.
pub fn bounds_formula(alloc: Global, bounded: &Bounded) -> Result<Formula, Fault>
    ensures exact { IfOk result (IsFormulaFor bounded.now) }
    ensures small { IfOk result (λ formula. formula.variables ≤ 2 ^ 30) }
    ensures limits { IfOk result (λ _. IsWithin bounded.now) }
    ensures refused { IfErr result (CannotUnwind bounded.now) }
{
    match leaving_formula(alloc, bounded) {
        Ok(formula) => Ok(formula.formula),
        Err(fault) => Err(fault),
    }
}
