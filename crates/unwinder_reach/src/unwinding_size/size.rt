// The size sum of the pairs that are reached.
ghost use Rattle.std.specs.Prelude.{◌≡◌, ◌<◌, ◌≤◌, length, slice_get, Some, IfOk, IfErr};
ghost use Rattle.cfa.specs.declared.parts.Function.{Function as OneFunction};
ghost use Rattle.unwinder_reach.specs.unwinding_size.Capped.{capped};
ghost use Rattle.unwinder_reach.specs.unwinding_size.Sizes.{size_sum, IsSizeFault};

use crate::reached::Reached;
use crate::unwinding_size::capped::{MOST_SIZE, sum};
use crate::unwinding_size::pairs::{pair_weight, tables_of};
use cfa::{Function, Graph, Predicates};
use fq_core::{Fault, Memory, Place, Refusal};
use std::alloc::Global;

/// The code of a refusal for a size sum that is too great.
const TOO_LARGE: u16 = 81;

// The sum, as it is counted.
#[tactic(auto, unfolding(crate::specs::unwinding_size::Capped::capped))]
fn counted_size(
    alloc: Global,
    graph: &Graph,
    first: &Function,
    predicates: &Predicates,
    reached: &Reached,
) -> Result<u64, Memory>
    ensures { IfOk result (λ size. size ≡ capped (size_sum graph.now predicates.now first.now reached.now.pairs reached.now.steps)) }
{
    let tables = tables_of(alloc, graph, predicates, reached)?;
    let mut total = 0;
    for (at, pair) in reached.pairs.as_slice().iter().enumerate() {
        total = sum(total, pair_weight(graph, first, &tables, at, pair));
    }
    Ok(total)
}

/// The size sum of the pairs that walks from the entry of a function reach, with the steps between them: for each pair the
/// weights of the operations that leave its node and of the predicates that have a typing there, and 8 for each cell of
/// its store for each step into it after the first.
///
/// # Errors
///
/// Code 81 at the limit of 4,194,304 says that the sum passes it, and comes wherever it does, unless memory runs out first.
#[tactic(auto, unfolding(crate::specs::unwinding_size::Capped::capped))]
pub fn size_of_unwinding(
    alloc: Global,
    graph: &Graph,
    entry: u32,
    predicates: &Predicates,
    reached: &Reached,
) -> Result<u32, Fault>
    requires { entry < length graph.now.functions }
    ensures accepted { IfOk result (λ size. (f : OneFunction) → slice_get graph.now.functions entry ≡ Some f → size ≡ size_sum graph.now predicates.now f reached.now.pairs reached.now.steps) }
    ensures small { IfOk result (λ size. size ≤ 4194304) }
    ensures refused { IfErr result (λ fault. (f : OneFunction) → slice_get graph.now.functions entry ≡ Some f → IsSizeFault (size_sum graph.now predicates.now f reached.now.pairs reached.now.steps) fault) }
{
    let first = &graph.functions()[entry as usize];
    let size = counted_size(alloc, graph, first, predicates, reached)?;
    if size > MOST_SIZE {
        return Err(Fault::Refused(Refusal {
            code: TOO_LARGE,
            place: Place::Limit { number: MOST_SIZE },
        }));
    }
    Ok(size as u32)
}
