// Which places a table of marks has, and how large it has to be.
ghost use Rattle.std.specs.Prelude.{◌≡◌, true, IfOk, IsTrue};
ghost use Rattle.std.specs.List.{list_all};
ghost use Rattle.cnf.specs.literal_marks.Marks.{has_places};
ghost use Rattle.derivation_check.specs.Marks.{HasPlaces};
ghost use Rattle.cnf.specs.declared.literal_marks.places.Places.TheVariants.{ByKey};

use crate::listing::all_literals;
use cnf::literal_marks::Places;
use cnf::{Clause, Derivation, DerivationLine, Formula, literal_key};
use fq_core::Memory;
use std::alloc::Global;

/// A table by keys may have so many places for each literal that occurs.
const PLACES_A_LITERAL: usize = 16;

/// A table by keys may have so many places in any case.
const FEW_PLACES: usize = 4096;

/// Places for the literals of a formula and of a derivation, and the size of a table with them. The literals stand at
/// their keys, unless that table would be large beside what is checked.
pub(crate) fn places_for(
    alloc: Global,
    formula: &Formula,
    derivation: &Derivation,
) -> Result<(Places, usize), Memory>
    ensures { IfOk result (λ made. HasPlaces made.0 made.1 formula.now derivation.now) }
{
    let size = table_size(formula, derivation);
    let literals = count_in_clauses(&formula.clauses).saturating_add(count_in_lines(
        &derivation.lines,
    ));
    if size <= literals.saturating_mul(PLACES_A_LITERAL).max(FEW_PLACES) {
        return Ok((Places::ByKey, size));
    }
    let all = all_literals(alloc, formula, derivation)?;
    let size = all.literals().len();
    Ok((Places::Listed(all), size))
}

fn count_in_clauses(clauses: &[Clause]) -> usize {
    let mut count: usize = 0;
    for clause in clauses {
        count = count.saturating_add(clause.literals().len());
    }
    count
}

fn count_in_lines(lines: &[DerivationLine]) -> usize {
    let mut count: usize = 0;
    for line in lines {
        count = count.saturating_add(line.clause.literals().len());
    }
    count
}

// The size of a table with a place for each literal of a formula and of a derivation at its key.
fn table_size(formula: &Formula, derivation: &Derivation) -> usize
    ensures { HasPlaces ByKey result formula.now derivation.now }
{
    size_for_clauses(&formula.clauses).max(size_for_lines(&derivation.lines))
}

fn size_for_clauses(clauses: &[Clause]) -> usize
    ensures { list_all (has_places ByKey result) clauses.now ≡ true }
{
    let mut size: usize = 0;
    for clause in clauses {
        size = size.max(size_for_clause(clause));
    }
    size
}

fn size_for_lines(lines: &[DerivationLine]) -> usize
    ensures { list_all (λ line. has_places ByKey result line.clause) lines.now ≡ true }
{
    let mut size: usize = 0;
    for line in lines {
        size = size.max(size_for_clause(&line.clause));
    }
    size
}

// Literals rise, so that the last one has the greatest key.
fn size_for_clause(clause: &Clause) -> usize
    ensures { IsTrue (has_places ByKey result clause.now) }
{
    match clause.literals().last() {
        Some(literal) => literal_key(*literal) + 1,
        None => 0,
    }
}
