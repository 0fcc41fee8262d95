// A formula with unit clauses, and how one more bit is set.
ghost use Rattle.std.specs.Prelude.{◌≡◌, ◌++◌, ◌∷◌, [], ◌<◌, ◌≤◌, ◌^◌, ℕ, ℤ, IfOk, List, OnOk};
ghost use Rattle.cnf.specs.Clauses.{IsLiteral};
ghost use Rattle.cnf.specs.declared.formula.Formula.{Formula as OneFormula};
ghost use Rattle.goal_formula.specs.Bits.{assignment};
ghost use Rattle.search.specs.Laws.{IsFormula};
ghost use Rattle.least_input.specs.Parts.{Adds, IsDescent, IsLowered};
ghost use Rattle.least_input.specs.declared.descent.Descent.{Descent as OneDescent};

use crate::least::Fixed;
use cnf::{Clause, Derivation, Formula, negation};
use containers::Vector;
use fq_core::Memory;
use search::History;
use search_checked::{Outcome, outcome};
use std::alloc::{AllocError, Global};

/// How far the bits are set: the formula with unit clauses at its end, their literals, a model of it, and what shows of each
/// bit that was set to 1 that it can't be 0.
#[derive(Drop)]
pub(crate) struct Descent {
    pub(crate) formula: Formula,
    pub(crate) units: Vector<i32>,
    pub(crate) model: Vector<bool>,
    pub(crate) fixed: Vector<Fixed>,
}

/// The value of a variable in a model.
fn value_of(model: &[bool], variable: u32) -> bool
    requires { 0 < variable }
    ensures { result ≡ assignment model.now variable }
{
    model.get(variable as usize - 1).copied().unwrap_or(false)
}

/// Takes the last item off.
fn drop_last<T: Drop>(items: &mut Vector<T>)
    ensures { (front : List T) (last : T) → items.old ≡ front ++ last ∷ [] → items.new ≡ front }
{
    let _last = items.pop();
}

/// Adds a unit clause.
fn add_unit(alloc: Global, descent: &mut Descent, literal: i32) -> Result<(), Memory>
    requires { IsLiteral literal }
    ensures { OnOk result (Adds descent.old literal descent.new) }
{
    let clause = Clause::from_rising(alloc, &[literal])?;
    descent.formula.clauses.push(clause)?;
    descent.units.push(literal)?;
    Ok(())
}

/// Takes the last unit clause off.
fn drop_unit(descent: &mut Descent)
    ensures { (before : OneDescent) (literal : ℤ) → Adds before literal descent.old
        → descent.new ≡ before }
{
    drop_last(&mut descent.formula.clauses);
    drop_last(&mut descent.units);
}

/// Keeps what shows that the last unit clause can't be.
fn keep_part(alloc: Global, descent: &mut Descent, derivation: Derivation) -> Result<(), AllocError>
    ensures { OnOk result (descent.new ≡ record descent.old {
      fixed = descent.old.fixed
          ++ record { units = descent.old.units; derivation = derivation } ∷ [];
    }) }
{
    let units = Vec::from_slice(alloc, &descent.units)?;
    let units = Vector::from_vec(units);
    descent.fixed.push(Fixed { units, derivation })
}

/// Sets one more variable: to 0 where that can be, else to 1. Answers the moves of a search that spent its budget, if one did.
pub(crate) fn lower(
    alloc: Global,
    descent: &mut Descent,
    variable: u32,
    budget: u64,
) -> Result<Option<History>, Memory>
    requires some { 0 < variable }
    requires there { variable ≤ descent.old.formula.variables }
    requires small { descent.old.formula.variables ≤ 2 ^ 30 }
    requires over { IsFormula descent.old.formula }
    ensures { (base : OneFormula) (variables : List ℕ) → IsDescent base budget variables descent.old
        → IfOk result (IsLowered base budget (variables ++ variable ∷ []) descent.new) }
{
    let is_one = value_of(&descent.model, variable);
    let one = variable as i32;
    add_unit(alloc, descent, negation(one))?;
    if !is_one {
        return Ok(None);
    }
    match outcome(alloc, &descent.formula, budget)? {
        Outcome::Model(model) => {
            descent.model = model;
            Ok(None)
        }
        Outcome::Refuted(derivation) => {
            keep_part(alloc, descent, derivation)?;
            drop_unit(descent);
            add_unit(alloc, descent, one)?;
            Ok(None)
        }
        Outcome::Open(history) => Ok(Some(history)),
    }
}
