// The traces of a file.
ghost use Rattle.std.specs.Prelude.{◌≡◌, [], IfErr, IfOk, IsSome, length, slice_get};
ghost use Rattle.std.specs.Option.{IsSomeAnd};
ghost use Rattle.cfa.specs.Predicates.{IsPredicates};
ghost use Rattle.fq_core.specs.declared.refusal.Fault.TheVariants as fault;
ghost use Rattle.fq_core.specs.declared.refusal.Place.TheVariants as place;
ghost use Rattle.fq_core.specs.Refusals.{IfRefused};
ghost use Rattle.trace_file.specs.Reading.{IsFileOf, IsRefused, most_traces, refused_at};

use crate::form::form_of;
use crate::runs::traces_of;
use crate::trace::Trace;
use cfa::{Graph, Predicates};
use fq_core::{Fault, Place, Refusal};
use path_runner::Ends;
use std::alloc::Global;

const MOST_TRACES: usize = 10_000;

fn too_many() -> Fault
    ensures { result ≡ fault.Refused (refused_at 53 (place.Limit most_traces)) }
{
    Fault::Refused(Refusal {
        code: 53,
        place: Place::Limit {
            number: MOST_TRACES as u64,
        },
    })
}

// How many parameters a function has.
fn parameter_count(graph: &Graph, function: u32) -> usize
    requires { IsSome (slice_get graph.now.functions function) }
    ensures { IsSomeAnd (slice_get graph.now.functions function) (λ f. result ≡ length f.parameters) }
{
    match graph.functions().get(function as usize) {
        Some(function) => function.parameters.len(),
        None => 0,
    }
}

/// The traces of a trace file of the function of this number, which has no array parameters: one for each line after the
/// first, in order.
///
/// # Errors
///
/// 55 at the first line of another form, 53 at the limit, 10000, where there are more traces, and 56 at the first line whose
/// trace isn't right: whose edges aren't those of a run of its input that these ends count.
pub fn read_trace(
    alloc: Global,
    graph: &Graph,
    entry: u32,
    predicates: &Predicates,
    ends: Ends,
    bytes: &[u8],
) -> Result<Vec<Trace>, Fault>
    requires start { IsSomeAnd (slice_get graph.now.functions entry) (λ f. f.arrays ≡ []) }
    requires predicates { IsPredicates graph.now predicates.now }
    ensures ok { IfOk result (λ traces. IsSomeAnd (slice_get graph.now.functions entry) (λ f. IsFileOf graph.now f ends predicates.now bytes.now traces.items)) }
    ensures refused { IfErr result (λ fault. IfRefused fault (λ refusal. IsSomeAnd (slice_get graph.now.functions entry) (λ f. IsRefused graph.now f ends bytes.now refusal))) }
{
    let parameters = parameter_count(graph, entry);
    let lines = form_of(alloc, bytes, parameters)?;
    if lines.len() > MOST_TRACES {
        return Err(too_many());
    }
    traces_of(alloc, graph, entry, predicates, ends, lines)
}
