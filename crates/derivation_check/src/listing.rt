// The literals of a formula and of a derivation, each once.
ghost use Rattle.std.specs.Prelude.{◌++◌, ◌≡◌, All, IfOk, OnOk, length};
ghost use Rattle.std.specs.List.{flat_map};
ghost use Rattle.cnf.specs.Clauses.{IsLiteral};
ghost use Rattle.derivation_check.specs.Marks.{HasPlaces};
ghost use Rattle.cnf.specs.declared.literal_marks.places.Places.TheVariants.{Listed};

use cnf::{Clause, Derivation, DerivationLine, Formula};
use fq_core::Memory;
use std::alloc::{AllocError, Global};

/// The clause of all literals of a formula and of a derivation, in which each of them has its place.
pub(crate) fn all_literals(
    alloc: Global,
    formula: &Formula,
    derivation: &Derivation,
) -> Result<Clause, Memory>
    ensures { IfOk result (λ all. HasPlaces (Listed all) (length all) formula.now derivation.now) }
{
    let mut literals = Vec::new(alloc);
    push_clauses(&mut literals, &formula.clauses)?;
    push_lines(&mut literals, &derivation.lines)?;
    let all = Clause::new(alloc, &literals)?;
    Ok(all)
}

// Appends the literals of clauses.
fn push_clauses(literals: &mut Vec<i32>, clauses: &[Clause]) -> Result<(), AllocError>
    requires { All IsLiteral literals.old.items }
    ensures items { OnOk result (literals.new.items ≡ literals.old.items ++ flat_map (λ clause. clause) clauses.now) }
    ensures literals { OnOk result (All IsLiteral literals.new.items) }
{
    for clause in clauses {
        literals.extend_from_slice(clause.literals())?;
    }
    Ok(())
}

// Appends the literals of the clauses of lines.
fn push_lines(literals: &mut Vec<i32>, lines: &[DerivationLine]) -> Result<(), AllocError>
    requires { All IsLiteral literals.old.items }
    ensures items { OnOk result (literals.new.items ≡ literals.old.items ++ flat_map (λ line. line.clause) lines.now) }
    ensures literals { OnOk result (All IsLiteral literals.new.items) }
{
    for line in lines {
        literals.extend_from_slice(line.clause.literals())?;
    }
    Ok(())
}
