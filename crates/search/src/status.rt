// What a clause is by the literals that are true, as a table of marks by key.
ghost use Rattle.std.specs.Prelude.{◌≡◌, neg_ℤ};
ghost use Rattle.cnf.specs.Clauses.{IsLiteral};
ghost use Rattle.cnf.specs.literal_marks.Marks.{marked};
ghost use Rattle.cnf.specs.declared.literal_marks.places.Places.TheVariants.{ByKey};
ghost use Rattle.search.specs.Statuses.{IsStatus};

use cnf::literal_marks::{Places, is_marked};
use cnf::{Clause, negation};

/// What a clause is: false, with one open literal while its others are false, or neither.
#[derive(Clone, Copy)]
pub(crate) enum Status {
    Conflict,
    Unit(i32),
    Neither,
}

/// Whether a literal is false.
pub(crate) fn is_false(values: &[bool], literal: i32) -> bool
    requires { IsLiteral literal }
    ensures { result ≡ marked ByKey values.now (neg_ℤ literal) }
{
    is_marked(&Places::ByKey, values, negation(literal))
}

/// What a clause is.
pub(crate) fn status_of(values: &[bool], clause: &Clause) -> Status
    ensures { IsStatus (marked ByKey values.now) clause.now result }
{
    let mut left = None;
    for literal in clause.literals() {
        if !is_false(values, *literal) {
            if left.is_some() {
                return Status::Neither;
            }
            left = Some(*literal);
        }
    }
    match left {
        None => Status::Conflict,
        Some(literal) => {
            if is_marked(&Places::ByKey, values, literal) {
                Status::Neither
            } else {
                Status::Unit(literal)
            }
        }
    }
}
