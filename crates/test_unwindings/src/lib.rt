//! Unwindings of functions without array parameters, for the tests and the figures of `goal_formula`.
#![tactic(auto)]

ghost use Rattle.std.specs.Prelude.{◌≡◌, ◌≤◌, [], IfOk, IfSome, slice_get};
ghost use Rattle.std.specs.Option.{IsSomeAnd};
ghost use Rattle.cfa.specs.Contexts.{IsOnce};
ghost use Rattle.cfa.specs.Predicates.{IsPredicates};
ghost use Rattle.unwinder.specs.Unwinding.{IsUnwound};

use c_meaning::Ends;
use cfa::{Graph, Predicates};
use fq_core::Fault;
use std::alloc::Global;
use unwinder::{Unwound, unwind};
use unwinder_reach::reached::Bounds;

/// The function `f`, where it has no array parameters.
pub fn entry_of(graph: &Graph) -> Option<u32>
    ensures { IfSome result (λ entry. IsSomeAnd (slice_get graph.now.functions entry) (λ f. f.arrays ≡ [])) }
{
    let entry = graph.function_named(b"f")?;
    let function = graph.functions().get(entry as usize)?;
    if function.arrays.is_empty() {
        Some(entry)
    } else {
        None
    }
}

/// An unwinding, which is one of the function that it names, with the bounds and the ends that it has.
pub fn unwound_of(
    alloc: Global,
    graph: &Graph,
    entry: u32,
    predicates: &Predicates,
    bounds: Bounds,
    ends: Ends,
) -> Result<Unwound, Fault>
    requires once { IsOnce graph.now }
    requires entry { IsSomeAnd (slice_get graph.now.functions entry) (λ f. f.arrays ≡ []) }
    requires predicates { IsPredicates graph.now predicates.now }
    requires frames { 1 ≤ bounds.frames }
    requires answers { bounds.answers ≤ 256 }
    ensures { IfOk result (λ u. IsSomeAnd (slice_get graph.now.functions u.entry) (λ f. IsUnwound graph.now predicates.now f u.entry u.bounds u.ends u)) }
{
    unwind(alloc, graph, entry, predicates, bounds, ends)
}
