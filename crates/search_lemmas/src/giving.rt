// Lessons behind the clauses of a goal's formula.
ghost use Rattle.std.specs.Prelude.{◌≡◌, ℕ, ℤ, List, Bool, IfOk, IfSome, OnOk, true};
ghost use Rattle.std.specs.List.{list_all};
ghost use Rattle.clause_form.specs.Encoding.{is_over};
ghost use Rattle.cnf.specs.Formulas.{Satisfies, is_true_clause};
ghost use Rattle.cnf.specs.declared.formula.Formula.{Formula as OneFormula};
ghost use Rattle.goal_formula.specs.Forms.{HasWorlds};
ghost use Rattle.search_lemmas.specs.Giving.{SaysTheSame};
ghost use Rattle.search_lemmas.specs.Naming.{AreNamed};
ghost use Rattle.search_lemmas.specs.Store.{Hold};

use crate::held::Held;
use crate::lesson::Lessons;
use crate::naming::renamed;
use circuit::Circuit;
use cnf::{Clause, Formula, literal_key};
use containers::TryClone;
use fq_core::Memory;
use goal_formula::GoalFormula;
use std::alloc::Global;

/// A goal's formula with lessons.
#[derive(Drop)]
pub struct Given {
    /// The clauses of the goal's formula, and behind them lessons.
    pub formula: Formula,
    /// The places of these lessons in their store, in order.
    pub places: Vec<usize>,
}

/// Whether all literals are of the variables from 1 to this number.
fn are_over(variables: u32, literals: &[i32]) -> bool
    ensures { result ≡ list_all (is_over variables) literals.now }
{
    literals
        .iter()
        .all(|literal| is_literal_over(variables, *literal))
}

fn is_literal_over(variables: u32, literal: i32) -> bool
    ensures { result ≡ is_over variables literal }
{
    let key = literal_key(literal);
    1 < key && key < 2 * variables as usize + 2
}

/// A lesson as a clause over the variables of a formula, if these wires of it have variables.
fn lesson_for(
    alloc: Global,
    lesson: &Clause,
    variable: &[Option<u32>],
    variables: u32,
) -> Result<Option<Clause>, Memory>
    ensures named { IfOk result (λ made. IfSome made (AreNamed variable.now lesson.now)) }
    ensures over { IfOk result (λ made.
        IfSome made (λ clause. list_all (is_over variables) clause ≡ true)) }
{
    let Some(clause) = renamed(alloc, variable, lesson.literals())? else {
        return Ok(None);
    };
    if are_over(variables, clause.literals()) {
        Ok(Some(clause))
    } else {
        Ok(None)
    }
}

/// Puts a lesson behind the clauses of a formula, if its wires have variables, and notes its place.
fn push_lesson(
    alloc: Global,
    lesson: &Clause,
    place: usize,
    variable: &[Option<u32>],
    given: &mut Given,
) -> Result<(), Memory>
    ensures { (formula : OneFormula) → SaysTheSame formula given.old.formula
        → ((clause : List ℤ) → AreNamed variable.now lesson.now clause
        → (value : ℕ → Bool) → Satisfies value formula → is_true_clause value clause ≡ true)
        → OnOk result (SaysTheSame formula given.new.formula) }
{
    let variables = given.formula.variables;
    match lesson_for(alloc, lesson, variable, variables)? {
        None => Ok(()),
        Some(clause) => {
            given.formula.clauses.push(clause)?;
            given.places.push(place)?;
            Ok(())
        }
    }
}

/// Puts the lessons whose wires have variables in a goal's formula behind the clauses of another one that says the same, and
/// notes their places.
fn push_lessons(
    alloc: Global,
    held: &Held,
    formula: &GoalFormula,
    given: &mut Given,
) -> Result<(), Memory>
    requires worlds { HasWorlds held.now.circuit.now formula.now }
    requires same { SaysTheSame formula.now.formula given.old.formula }
    ensures { OnOk result (SaysTheSame formula.now.formula given.new.formula) }
{
    let count = formula.variable.len().min(held.circuit.wires() as usize);
    let variable = &formula.variable[..count];
    for (place, lesson) in held.lessons.iter().enumerate() {
        push_lesson(alloc, lesson, place, variable, given)?;
    }
    Ok(())
}

impl Lessons {
    /// A goal's formula with each lesson whose wires have variables in it, if there is one.
    pub fn given(
        &self,
        alloc: Global,
        circuit: &Circuit,
        formula: &GoalFormula,
    ) -> Result<Option<Given>, Memory>
        requires lessons { Hold circuit.now self.now }
        requires worlds { HasWorlds circuit.now formula.now }
        ensures { IfOk result (λ made.
            IfSome made (λ given. SaysTheSame formula.now.formula given.formula)) }
    {
        if self.is_empty() {
            return Ok(None);
        }
        let mut given = Given {
            formula: formula.formula.try_clone(alloc)?,
            places: Vec::new(alloc),
        };
        let held = Held {
            circuit,
            lessons: &self.clauses,
        };
        push_lessons(alloc, &held, formula, &mut given)?;
        if given.places.is_empty() {
            return Ok(None);
        }
        Ok(Some(given))
    }
}
