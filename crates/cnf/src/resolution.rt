// The resolvent of two clauses.
ghost use Rattle.std.specs.Prelude.{◌≡◌, ◌++◌, ℤ, neg_ℤ, not, filter, IfOk};
ghost use Rattle.std.specs.Bool.{OnTrue};
ghost use Rattle.std.specs.Ordering.{int_eq};
ghost use Rattle.cnf.specs.Clauses.{IsClause, IsLiteral, has_literal};
ghost use Rattle.cnf.specs.Resolution as resolution;

use crate::clause::Clause;
use crate::literal::negation;
use fq_core::Memory;
use std::alloc::{AllocError, Global};

/// The resolvent of two clauses on a literal: the left one without the pivot, joined with the right one without
/// the pivot's negation. None exactly where the pivot isn't in the left one, or its negation not in the right one.
pub fn resolve(
    alloc: Global,
    left: &Clause,
    pivot: i32,
    right: &Clause,
) -> Result<Option<Clause>, Memory>
    ensures { IfOk result (λ answer. resolution.IsResolvent left.now pivot right.now answer) }
{
    if can_resolve(left, pivot, right) {
        Ok(Some(resolvent(alloc, left, pivot, right)?))
    } else {
        Ok(None)
    }
}

/// Whether two clauses have a resolvent on a literal.
pub fn can_resolve(left: &Clause, pivot: i32, right: &Clause) -> bool
    ensures value { result ≡ resolution.can_resolve (has_literal left.now) pivot (has_literal right.now) }
    ensures literal { OnTrue result (IsLiteral pivot) }
{
    left.contains(pivot) && right.contains(negation(pivot))
}

// The resolvent as a clause.
fn resolvent(alloc: Global, left: &Clause, pivot: i32, right: &Clause) -> Result<Clause, Memory>
    requires { IsLiteral pivot }
    ensures clause { IfOk result IsClause }
    ensures literals { IfOk result (λ c.
        (x : ℤ) → has_literal c x ≡ resolution.resolvent (has_literal left.now) pivot (has_literal right.now) x) }
{
    let negated = negation(pivot);
    let literals = joined(alloc, left.literals(), pivot, right.literals(), negated)?;
    Clause::new(alloc, &literals)
}

// The literals of both sides, each without its own.
fn joined(
    alloc: Global,
    left: &[i32],
    pivot: i32,
    right: &[i32],
    negated: i32,
) -> Result<Vec<i32>, AllocError>
    ensures { IfOk result (λ all.
        all.items ≡ filter (λ x. not (int_eq x pivot)) left.now ++ filter (λ x. not (int_eq x negated)) right.now) }
{
    let left = left.iter().filter(|literal| **literal != pivot);
    let right = right.iter().filter(|literal| **literal != negated);
    left.chain(right).copied().collect(alloc)
}
