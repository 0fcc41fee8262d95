// Whether a line is right.
ghost use Rattle.std.specs.Prelude.{◌≡◌, ◌↔◌, IsTrue, length};
ghost use Rattle.std.specs.Bool.{OnTrue};
ghost use Rattle.std.specs.List.{list_all};
ghost use Rattle.cnf.specs.Checks.{IsRight, clauses_before};
ghost use Rattle.cnf.specs.literal_marks.Marks.{IsClear, marked};
ghost use Rattle.derivation_check.specs.Marks.{HasPlaces, is_clear_chain, is_clear_of};

use crate::chain::mark_chain;
use cnf::literal_marks::{Places, all_marked, any_marked, unmark_all};
use cnf::{Derivation, DerivationLine, Formula, clause_before};

/// Whether a line is right over the formula and the first `before` lines. Then no mark is left.
pub(crate) fn is_right(
    places: &Places,
    marks: &mut [bool],
    formula: &Formula,
    derivation: &Derivation,
    before: usize,
    line: &DerivationLine,
) -> bool
    requires clear { IsClear places.now marks.old }
    requires places { HasPlaces places.now (length marks.old) formula.now derivation.now }
    ensures right { IsTrue result ↔ IsRight (clauses_before formula.now derivation.now before) line.now }
    ensures clear { OnTrue result (IsClear places.now marks.new) }
{
    if !mark_chain(places, marks, formula, derivation, before, line) {
        return false;
    }
    let listed = line.clause.literals();
    if !all_marked(places, marks, listed) {
        return false;
    }
    unmark_all(places, marks, listed);
    // Each mark that was made is on a literal of the chain's clauses.
    is_chain_clear(places, marks, formula, derivation, before, line)
}

// Whether no literal of the clauses of a line's chain is marked.
fn is_chain_clear(
    places: &Places,
    marks: &[bool],
    formula: &Formula,
    derivation: &Derivation,
    before: usize,
    line: &DerivationLine,
) -> bool
    ensures { result ≡ is_clear_chain (clauses_before formula.now derivation.now before) (marked places.now marks.now) line.now }
{
    is_clause_clear(places, marks, formula, derivation, before, line.first)
        && are_steps_clear(places, marks, formula, derivation, before, &line.steps)
}

fn are_steps_clear(
    places: &Places,
    marks: &[bool],
    formula: &Formula,
    derivation: &Derivation,
    before: usize,
    steps: &[(u32, i32)],
) -> bool
    ensures { result ≡ list_all (λ step. is_clear_of (clauses_before formula.now derivation.now before) (marked places.now marks.now) step.0) steps.now }
{
    steps.iter().all(|step| is_clause_clear(places, marks, formula, derivation, before, step.0))
}

// Whether no literal of the clause with a number is marked.
fn is_clause_clear(
    places: &Places,
    marks: &[bool],
    formula: &Formula,
    derivation: &Derivation,
    before: usize,
    number: u32,
) -> bool
    ensures { result ≡ is_clear_of (clauses_before formula.now derivation.now before) (marked places.now marks.now) number }
{
    match clause_before(formula, derivation, before, number) {
        Some(clause) => !any_marked(places, marks, clause.literals()),
        None => true,
    }
}
