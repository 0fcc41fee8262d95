// What is seen behind declarations.
ghost use Rattle.std.specs.Prelude.{◌≡◌, ◌∷◌, ◌++◌, map, length, if◌then◌else◌, true, ◌||◌, IfOk, IfErr, OnOk};
ghost use Rattle.c_lower_rules.specs.graph_of.Builder.{scope as one_scope, after};
ghost use Rattle.c_lower_rules.specs.graph_of.Edges.{scope_behind, sees_behind, seeing};
ghost use Rattle.c_lower_rules.specs.graph_of.Statements.{declared_by};
ghost use Rattle.c_lower_rules.specs.graph_of.Table.{piece};
ghost use Rattle.c_lower.specs.Forms.{has_any};

use crate::around::{copied, shared};
use crate::stop::Stop;
use c_lower_rules::graph_of::{Around, Parts};
use c_typed_trees::{TypedForm, TypedStatement};
use cfa::{Scope, Variable, Variables};
use containers::TryClone;
use std::alloc::{AllocError, Global};

/// A variable, and what is seen further out.
fn before(alloc: Global, variable: &Variable, sees: Scope) -> Result<(Scope, bool), AllocError>
    ensures sees { IfOk result (λ r. r.0.variables ≡ variable.now ∷ sees.variables) }
    ensures fresh { IfOk result (λ r. r.1 ≡ true) }
{
    let Scope { variables } = sees;
    let variables = Variables::with(alloc, variable.try_clone(alloc)?, variables)?;
    Ok((Scope { variables }, true))
}

/// What a statement declares, and what is seen further out; and whether it declares anything.
#[tactic(auto, using(crate::proofs::ScopeLaws::declare_laws))]
fn declare(
    alloc: Global,
    statement: &TypedStatement,
    sees: Scope,
) -> Result<(Scope, bool), AllocError>
    ensures sees { IfOk result (λ r. r.0.variables ≡ (piece statement.now).declares ++ sees.variables) }
    ensures fresh { IfOk result (λ r. r.1 ≡ has_any (piece statement.now).declares) }
{
    match &statement.form {
        TypedForm::Local { variable, .. } => before(alloc, variable, sees),
        TypedForm::LocalArray { variable, .. } => before(alloc, variable, sees),
        _ => Ok((sees, false)),
    }
}

fn any(a: bool, b: bool) -> bool
    ensures { result ≡ (a || b) }
{
    a || b
}

/// What statements declare, and what is seen further out; and whether they declare anything.
fn declare_all(
    alloc: Global,
    around: &Around,
    list: &[TypedStatement],
) -> Result<(Scope, bool), AllocError>
    ensures sees { IfOk result (λ r. r.0.variables ≡ declared_by (map piece list.now) ++ around.now.sees.variables) }
    ensures fresh { IfOk result (λ r. r.1 ≡ has_any (declared_by (map piece list.now))) }
{
    let mut sees = shared(&around.sees)?;
    let mut fresh = false;
    for statement in list {
        let (more, new) = declare(alloc, statement, sees)?;
        sees = more;
        fresh = any(fresh, new);
    }
    Ok((sees, fresh))
}

#[tactic(auto, unfolding(c_lower_rules::specs::graph_of::Builder::after))]
fn new_scope(seen: Scope, parts: &mut Parts) -> Result<u32, Stop>
    ensures number { IfOk result (λ number. number ≡ length parts.old.scopes) }
    ensures made { IfOk result (λ number. parts.new ≡ after (one_scope seen) parts.old) }
    ensures nodes { OnOk result (length parts.new.nodes ≡ length parts.old.nodes) }
    ensures memory { IfErr result (λ stop. stop ≡ Stop.Memory) }
{
    let number = parts.scopes.len();
    if number > u32::MAX as usize {
        return Err(Stop::Memory);
    }
    parts.scopes.push(seen)?;
    Ok(number as u32)
}

/// What is seen from here on, in a new scope where it is fresh.
fn settle(around: &Around, sees: Scope, fresh: bool, parts: &mut Parts) -> Result<Around, Stop>
    ensures inner { IfOk result (λ w. w ≡ (if fresh then record around.now { scope = length parts.old.scopes; sees = sees } else record around.now { sees = sees })) }
    ensures made { OnOk result (parts.new ≡ (if fresh then after (one_scope sees) parts.old else parts.old)) }
    ensures nodes { OnOk result (length parts.new.nodes ≡ length parts.old.nodes) }
    ensures memory { IfErr result (λ stop. stop ≡ Stop.Memory) }
{
    let mut inner = copied(around)?;
    if fresh {
        inner.scope = new_scope(shared(&sees)?, parts)?;
    }
    inner.sees = sees;
    Ok(inner)
}

/// What is seen behind a statement.
#[tactic(auto, using(crate::proofs::ScopeLaws::behind_laws))]
pub(crate) fn behind(
    alloc: Global,
    around: &Around,
    statement: &TypedStatement,
    parts: &mut Parts,
) -> Result<Around, Stop>
    ensures inner { IfOk result (λ w. w ≡ seeing around.now (piece statement.now).declares (length parts.old.scopes)) }
    ensures made { OnOk result (parts.new ≡ after (scope_behind around.now (piece statement.now).declares) parts.old) }
    ensures nodes { OnOk result (length parts.new.nodes ≡ length parts.old.nodes) }
    ensures memory { IfErr result (λ stop. stop ≡ Stop.Memory) }
{
    let sees = shared(&around.sees)?;
    let (sees, fresh) = declare(alloc, statement, sees)?;
    settle(around, sees, fresh, parts)
}

/// What is seen behind statements.
#[tactic(auto, using(crate::proofs::ScopeLaws::behind_laws))]
pub(crate) fn behind_all(
    alloc: Global,
    around: &Around,
    list: &[TypedStatement],
    parts: &mut Parts,
) -> Result<Around, Stop>
    ensures inner { IfOk result (λ w. w ≡ seeing around.now (declared_by (map piece list.now)) (length parts.old.scopes)) }
    ensures made { OnOk result (parts.new ≡ after (scope_behind around.now (declared_by (map piece list.now))) parts.old) }
    ensures nodes { OnOk result (length parts.new.nodes ≡ length parts.old.nodes) }
    ensures memory { IfErr result (λ stop. stop ≡ Stop.Memory) }
{
    let (sees, fresh) = declare_all(alloc, around, list)?;
    settle(around, sees, fresh, parts)
}
