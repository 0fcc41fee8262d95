// What differs first in two formulas.
ghost use Rattle.std.specs.Prelude.{◌≡◌, ◌≢◌, ◌<◌, ◌^◌, MatchOption, length, max, slice_get, take};
ghost use Rattle.certificate.specs.Differences.{IsFirstDifference};

use cnf::{Clause, Formula};
use containers::Same;

/// What differs first in two formulas.
#[derive(Clone, Copy, Debug, PartialEq, Eq)]
pub enum Difference {
    /// The numbers of variables.
    Variables { theirs: u32, ours: u32 },
    /// The first clauses, by their number from 1, that differ, or of which only one is there.
    ClauseAt { index: u32 },
}

/// What differs first in two formulas, or None where they are one. It takes no memory.
pub fn compare(theirs: &Formula, ours: &Formula) -> Option<Difference>
    requires theirs { length theirs.now.clauses < 2 ^ 32 }
    requires ours { length ours.now.clauses < 2 ^ 32 }
    ensures { IsFirstDifference theirs.now ours.now result }
{
    if theirs.variables != ours.variables {
        return Some(Difference::Variables {
            theirs: theirs.variables,
            ours: ours.variables,
        });
    }
    match first_other(&theirs.clauses, &ours.clauses) {
        Some(at) => Some(Difference::ClauseAt {
            index: at as u32 + 1,
        }),
        None => None,
    }
}

// The first place, from 0, at which two lists differ or only one goes on.
fn first_other(theirs: &[Clause], ours: &[Clause]) -> Option<usize>
    ensures { MatchOption result
        (theirs.now ≡ ours.now)
        (λ at. (take at theirs.now ≡ take at ours.now) × (slice_get theirs.now at ≢ slice_get ours.now at)
        × (at < max (length theirs.now) (length ours.now))) }
{
    for (at, clause) in theirs.iter().enumerate() {
        match ours.get(at) {
            Some(other) if clause.same(other) => {}
            _ => return Some(at),
        }
    }
    if theirs.len() < ours.len() {
        Some(theirs.len())
    } else {
        None
    }
}
