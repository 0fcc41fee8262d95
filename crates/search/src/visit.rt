// What a watched literal that became false asks for.
ghost use Rattle.std.specs.Prelude.{◌≡◌, ℤ, neg_ℤ, true, false, IfNone, IfSome, if◌then◌else◌};
ghost use Rattle.std.specs.Ordering.{int_eq};
ghost use Rattle.cnf.specs.Clauses.{IsClause, IsLiteral, has_literal};
ghost use Rattle.cnf.specs.literal_marks.Marks.{marked};
ghost use Rattle.cnf.specs.declared.literal_marks.places.Places.TheVariants.{ByKey};
ghost use Rattle.search.specs.Visits.{IsLook, partner_of};

use crate::status::is_false;
use crate::watching::Pair;
use cnf::Clause;
use cnf::literal_marks::{Places, is_marked};

/// What becomes of a clause one of whose watched literals is false.
#[derive(Clone, Copy)]
pub(crate) enum Look {
    /// Its other watched literal is true.
    Satisfied,
    /// This one isn't false, and not watched.
    Other(i32),
    /// All are false but this one, which is open.
    Unit(i32),
    /// All are false.
    Conflict,
}

/// The other literal of a pair.
pub(crate) fn partner(pair: Pair, literal: i32) -> i32
    ensures { result ≡ partner_of pair literal }
{
    if pair.left == literal {
        pair.right
    } else {
        pair.left
    }
}

/// The first literal of a clause that isn't false, other than one.
fn unwatched(values: &[bool], clause: &[i32], partner: i32) -> Option<i32>
    requires { IsClause clause.now }
    ensures some { IfSome result (λ x. (has_literal clause.now x ≡ true) × (marked ByKey values.now (neg_ℤ x) ≡ false) × (int_eq x partner ≡ false) × IsLiteral x) }
    ensures none { IfNone result ((x : ℤ) → has_literal clause.now x ≡ true → int_eq x partner ≡ false → marked ByKey values.now (neg_ℤ x) ≡ true) }
{
    for literal in clause {
        if *literal != partner && !is_false(values, *literal) {
            return Some(*literal);
        }
    }
    None
}

/// What becomes of a clause, of whose watched literals the other one than this is false.
pub(crate) fn look_at(values: &[bool], clause: &Clause, partner: i32) -> Look
    requires literal { has_literal clause.now partner ≡ true }
    ensures { IsLook (marked ByKey values.now) clause.now partner result }
{
    if is_marked(&Places::ByKey, values, partner) {
        return Look::Satisfied;
    }
    match unwatched(values, clause.literals(), partner) {
        Some(other) => Look::Other(other),
        None if is_false(values, partner) => Look::Conflict,
        None => Look::Unit(partner),
    }
}
