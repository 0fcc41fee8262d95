// A line's chain of resolutions, on marks.
ghost use Rattle.std.specs.Prelude.{◌≡◌, ◌∷◌, ℕ, ℤ, List, Some, None, if◌then◌else◌, length};
ghost use Rattle.cnf.specs.Checks.{chain_of, clauses_before, resolved};
ghost use Rattle.cnf.specs.literal_marks.Marks.{IsClear, marked};
ghost use Rattle.derivation_check.specs.Marks.{HasPlaces};

use cnf::literal_marks::{Places, mark_all, resolve_marked};
use cnf::{Derivation, DerivationLine, Formula, clause_before};

/// Marks the clause that a line's chain gives. False where the chain doesn't exist.
pub(crate) fn mark_chain(
    places: &Places,
    marks: &mut [bool],
    formula: &Formula,
    derivation: &Derivation,
    before: usize,
    line: &DerivationLine,
) -> bool
    requires clear { IsClear places.now marks.old }
    requires places { HasPlaces places.now (length marks.old) formula.now derivation.now }
    ensures { chain_of (clauses_before formula.now derivation.now before) line.now ≡ (if result then Some (marked places.now marks.new) else None) }
{
    match clause_before(formula, derivation, before, line.first) {
        Some(first) => {
            mark_all(places, marks, first.literals());
            mark_steps(places, marks, formula, derivation, before, &line.steps)
        }
        None => false,
    }
}

// Resolves in turn. False where a resolvent doesn't exist.
fn mark_steps(
    places: &Places,
    marks: &mut [bool],
    formula: &Formula,
    derivation: &Derivation,
    before: usize,
    steps: &[(u32, i32)],
) -> bool
    requires { HasPlaces places.now (length marks.old) formula.now derivation.now }
    ensures { resolved (clauses_before formula.now derivation.now before) (marked places.now marks.old) steps.now
        ≡ (if result then Some (marked places.now marks.new) else None) }
{
    for step in steps {
        if !mark_step(places, marks, formula, derivation, before, step.0, step.1) {
            return false;
        }
    }
    true
}

// One step.
fn mark_step(
    places: &Places,
    marks: &mut [bool],
    formula: &Formula,
    derivation: &Derivation,
    before: usize,
    antecedent: u32,
    pivot: i32,
) -> bool
    requires { HasPlaces places.now (length marks.old) formula.now derivation.now }
    ensures { (rest : List (ℕ × ℤ)) →
        resolved (clauses_before formula.now derivation.now before) (marked places.now marks.old) ((antecedent, pivot) ∷ rest)
        ≡ (if result then resolved (clauses_before formula.now derivation.now before) (marked places.now marks.new) rest else None) }
{
    match clause_before(formula, derivation, before, antecedent) {
        Some(antecedent) => resolve_marked(places, marks, pivot, antecedent),
        None => false,
    }
}
