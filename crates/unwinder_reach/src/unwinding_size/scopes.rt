// What the predicates that have a typing in a scope weigh.
ghost use Rattle.std.specs.Prelude.{◌≡◌, ◌<◌, ℕ, length, slice_get, slice_index, IfOk};
ghost use Rattle.unwinder_reach.specs.unwinding_size.Capped.{capped};
ghost use Rattle.unwinder_reach.specs.unwinding_size.Sizes.{meaning_weight, scope_weight};

use crate::unwinding_size::capped::sum;
use crate::unwinding_size::expressions::weight;
use cfa::{Graph, Predicates, SharedExpr};
use fq_core::Memory;
use std::alloc::Global;

// The weight of a predicate, by its row, in a scope.
#[tactic(auto, unfolding(crate::specs::unwinding_size::Capped::capped))]
fn meaning_weight(row: &[Option<SharedExpr>], scope: usize) -> u64
    ensures { result ≡ capped (meaning_weight (slice_get row.now scope)) }
{
    match row.get(scope) {
        None => 0,
        Some(meaning) => match meaning {
            None => 0,
            Some(shared) => weight(shared.expr()),
        },
    }
}

#[tactic(auto, unfolding(crate::specs::unwinding_size::Capped::capped))]
fn scope_weight(predicates: &Predicates, scope: usize) -> u64
    ensures { result ≡ capped (scope_weight predicates.now scope) }
{
    let mut total = 0;
    for row in predicates.meanings.as_slice() {
        total = sum(total, meaning_weight(row, scope));
    }
    total
}

/// By scope, the weight of the predicates that have a typing in it.
pub(crate) fn scope_weights(
    alloc: Global,
    graph: &Graph,
    predicates: &Predicates,
) -> Result<Vec<u64>, Memory>
    ensures { IfOk result (λ table. (scope : ℕ) → scope < length graph.now.scopes → slice_index table.items scope ≡ capped (scope_weight predicates.now scope)) }
{
    let mut table = Vec::new(alloc);
    for scope in 0..graph.scopes().len() {
        table.push(scope_weight(predicates, scope))?;
    }
    Ok(table)
}
