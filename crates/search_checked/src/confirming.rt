// What a search refuted, confirmed.
ghost use Rattle.std.specs.Prelude.{◌≤◌, ◌^◌, OnOk};
ghost use Rattle.certificate.specs.Certificates.{IsPair};
ghost use Rattle.cnf.specs.Checks.{Checks};
ghost use Rattle.search.specs.Laws.{IsFormula};

use crate::rising::{clauses_rise, lines_rise};
use cnf::{Derivation, Formula};
use derivation_check::{Checker, Verdict};
use fq_core::Memory;
use std::alloc::Global;

// The checker and certificates number clauses, the formula's and then the lines', in 32 bits.
const MOST_CLAUSES: usize = 0xffff_ffff;

/// Has the checker look at a derivation, whose answer is known: it checks over the formula. A certificate can write both.
///
/// # Errors
///
/// Want of memory; also where the formula's clauses and the lines are 2^32 or more together, which the search never answers.
pub fn confirm(alloc: Global, formula: &Formula, derivation: &Derivation) -> Result<(), Memory>
    requires variables { formula.now.variables ≤ 2 ^ 30 }
    requires formula { IsFormula formula.now }
    requires checks { Checks formula.now derivation.now }
    ensures { OnOk result (IsPair formula.now derivation.now) }
{
    let clauses = formula.clauses.len();
    let lines = derivation.lines.len();
    if clauses > MOST_CLAUSES || lines > MOST_CLAUSES - clauses {
        return Err(Memory);
    }
    clauses_rise(&formula.clauses);
    lines_rise(&derivation.lines);
    let mut checker = Checker::prepare(alloc, formula, derivation)?;
    match checker.check() {
        Verdict::Yes => Ok(()),
        Verdict::BadStep { line: _line } => unreachable!(),
        Verdict::NoEmptyClause => unreachable!(),
    }
}
