// One resolution, on marks.
ghost use Rattle.std.specs.Prelude.{◌≡◌, ℤ, IsTrue, length};
ghost use Rattle.std.specs.Bool.{OnTrue};
ghost use Rattle.cnf.specs.Clauses.{has_literal};
ghost use Rattle.cnf.specs.Resolution.{can_resolve, resolvent};
ghost use Rattle.cnf.specs.literal_marks.Marks.{has_places, marked};

use crate::literal_marks::marks::{is_marked, mark_others, unmark};
use crate::literal_marks::places::Places;
use crate::{Clause, is_literal, negation};

/// Resolves the marked clause with an antecedent. False where they have no resolvent.
pub fn resolve_marked(places: &Places, marks: &mut [bool], pivot: i32, antecedent: &Clause) -> bool
    requires { IsTrue (has_places places.now (length marks.old) antecedent.now) }
    ensures value { result ≡ can_resolve (marked places.now marks.old) pivot (has_literal antecedent.now) }
    ensures marks { OnTrue result
        ((x : ℤ) → marked places.now marks.new x ≡ resolvent (marked places.now marks.old) pivot (has_literal antecedent.now) x) }
{
    let literals = antecedent.literals();
    if !is_literal(pivot) {
        return false;
    }
    if !is_marked(places, marks, pivot) {
        return false;
    }
    unmark(places, marks, pivot);
    mark_others(places, marks, literals, negation(pivot))
}
