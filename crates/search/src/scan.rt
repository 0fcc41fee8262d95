// What the clauses are.
ghost use Rattle.std.specs.Prelude.{◌+◌, ◌<◌, ◌^◌, length};
ghost use Rattle.cnf.specs.Checks.{clauses_before};
ghost use Rattle.cnf.specs.literal_marks.Marks.{marked};
ghost use Rattle.cnf.specs.declared.literal_marks.places.Places.TheVariants.{ByKey};
ghost use Rattle.search.specs.Statuses.{IsScan};

use crate::status::{Status, status_of};
use cnf::{Derivation, Formula, clause_before};

/// A clause that is false; else one with one open literal while its others are false, and that literal; else neither.
#[derive(Clone, Copy)]
pub(crate) enum Scan {
    Conflict(u32),
    Unit { clause: u32, literal: i32 },
    Neither,
}

/// Looks at all clauses, the formula's and the learned ones.
pub(crate) fn look_through(values: &[bool], formula: &Formula, learned: &Derivation) -> Scan
    requires { length formula.now.clauses + length learned.now.lines < 2 ^ 32 }
    ensures { IsScan (marked ByKey values.now) (clauses_before formula.now learned.now (length learned.now.lines)) result }
{
    let lines = learned.lines.len();
    let count = formula.clauses.len() + lines;
    let mut found = Scan::Neither;
    for place in 0..count {
        let number = place as u32 + 1;
        if let Some(clause) = clause_before(formula, learned, lines, number) {
            match status_of(values, clause) {
                Status::Conflict => return Scan::Conflict(number),
                Status::Unit(literal) => {
                    found = Scan::Unit {
                        clause: number,
                        literal,
                    };
                }
                Status::Neither => {}
            }
        }
    }
    found
}
