// The next move.
ghost use Rattle.std.specs.Prelude.{◌≡◌, ◌+◌, ◌*◌, ◌<◌, ◌≤◌, ◌^◌, ℤ, IfOk, length};
ghost use Rattle.cnf.specs.literal_marks.Marks.{IsClear, marked};
ghost use Rattle.cnf.specs.declared.literal_marks.places.Places.TheVariants.{ByKey};
ghost use Rattle.search.specs.Machine.{is_true};
ghost use Rattle.search.specs.Nexts.{IsNext, state_of};
ghost use Rattle.search.specs.Sound.{IsSound};
ghost use Rattle.search.specs.Trails.{AreLocated};

use crate::choice::lowest_open;
use crate::conflict::lesson_of;
use crate::scan::{Scan, look_through};
use crate::trail::Entry;
use cnf::{Derivation, DerivationLine, Formula};
use fq_core::Memory;
use std::alloc::Global;

/// What comes next in a state: the search is finished, or a move. A literal is what the move puts on the trail.
#[derive(Drop)]
pub(crate) enum Next {
    Model,
    Refuted(DerivationLine),
    Propagate {
        clause: u32,
        literal: i32,
    },
    Decide {
        literal: i32,
    },
    Jump {
        line: DerivationLine,
        cut: usize,
        literal: i32,
    },
}

/// What comes next: a clause that is false is learned from, else one with a single literal left is propagated, else the
/// lowest open variable is decided to be false.
pub(crate) fn next_of(
    alloc: Global,
    formula: &Formula,
    learned: &Derivation,
    trail: &[Entry],
    values: &[bool],
    places: &[u32],
    marks: &mut [bool],
) -> Result<Next, Memory>
    requires sound { IsSound formula.now learned.now trail.now }
    requires values { (x : ℤ) → marked ByKey values.now x ≡ is_true trail.now x }
    requires small { formula.now.variables ≤ 2 ^ 30 }
    requires few { length formula.now.clauses + length learned.now.lines < 2 ^ 32 }
    requires size { length marks.old ≡ 2 * formula.now.variables + 2 }
    requires room { length places.now ≡ 2 * formula.now.variables + 2 }
    requires located { AreLocated trail.now places.now }
    requires clear { IsClear ByKey marks.old }
    ensures { IfOk result (IsNext formula.now (state_of trail.now learned.now)) }
{
    match look_through(values, formula, learned) {
        Scan::Conflict(number) => {
            let lesson = lesson_of(alloc, marks, places, formula, learned, trail, number)?;
            let line = lesson.line;
            drop(lesson.seen);
            match lesson.landing {
                None => Ok(Next::Refuted(line)),
                Some(landing) => Ok(Next::Jump {
                    line,
                    cut: landing.cut,
                    literal: landing.literal,
                }),
            }
        }
        Scan::Unit { clause, literal } => Ok(Next::Propagate { clause, literal }),
        Scan::Neither => match lowest_open(values, 0, formula.variables) {
            None => Ok(Next::Model),
            Some(literal) => Ok(Next::Decide { literal }),
        },
    }
}
