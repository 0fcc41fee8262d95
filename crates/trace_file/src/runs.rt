// The runs of a file's lines.
ghost use Rattle.std.specs.Prelude.{◌≡◌, ◌↔◌, All, IfErr, IfOk, IsTrue, MatchOption, slice_get};
ghost use Rattle.std.specs.List.{AllZip};
ghost use Rattle.std.specs.Option.{IsSomeAnd};
ghost use Rattle.cfa.specs.Predicates.{IsPredicates};
ghost use Rattle.c_meaning.specs.Starts.{CanStart};
ghost use Rattle.path_runner.specs.Counted.{counts_end};
ghost use Rattle.fq_core.specs.Refusals.{IfRefused};
ghost use Rattle.trace_file.specs.Reading.{HasWrongLine, IsRight, IsRunOf, IsTraceOf};

use crate::form::refused_at;
use crate::line::Line;
use crate::trace::Trace;
use cfa::{Graph, Predicates};
use containers::same_items;
use fq_core::{Fault, Memory};
use path_runner::{Ends, PathRecord, trace_run};
use std::alloc::Global;

// Whether a path is a run that these ends count, along these edges.
fn is_run_along(path: &PathRecord, ends: Ends, edges: &[u32]) -> bool
    ensures { IsTrue result ↔ (IsTrue (counts_end ends path.now.end) × (path.now.edges ≡ edges.now)) }
{
    path.end.is_counted(ends) && same_items(&path.edges, edges)
}

// The record of a line's run, or `None` where the line isn't right.
fn run_of(
    alloc: Global,
    graph: &Graph,
    entry: u32,
    predicates: &Predicates,
    ends: Ends,
    line: &Line,
) -> Result<Option<PathRecord>, Memory>
    requires start { IsSomeAnd (slice_get graph.now.functions entry) (λ f. CanStart f line.now.input.words) }
    requires predicates { IsPredicates graph.now predicates.now }
    ensures { IfOk result (λ found. MatchOption found
        (IsSomeAnd (slice_get graph.now.functions entry) (λ f. ¬ IsRight graph.now f ends line.now))
        (λ run. IsSomeAnd (slice_get graph.now.functions entry) (λ f. IsRunOf graph.now f ends predicates.now line.now run))) }
{
    let wanted = line.edges.as_slice();
    let limit = wanted.len() as u64;
    let run = trace_run(alloc, graph, entry, &line.input, predicates, limit)?;
    if is_run_along(&run, ends, wanted) {
        Ok(Some(run))
    } else {
        Ok(None)
    }
}

fn with_run(line: Line, run: PathRecord) -> Trace
    ensures { result ≡ record { input = line.input; run = run } }
{
    let Line {
        input,
        edges: _edges,
    } = line;
    Trace { input, run }
}

/// The traces of lines, or the refusal of the first that isn't right. Each input has a word for each parameter of the entry.
pub(crate) fn traces_of(
    alloc: Global,
    graph: &Graph,
    entry: u32,
    predicates: &Predicates,
    ends: Ends,
    lines: Vec<Line>,
) -> Result<Vec<Trace>, Fault>
    requires start { IsSomeAnd (slice_get graph.now.functions entry) (λ f. All (λ line. CanStart f line.input.words) lines.items) }
    requires predicates { IsPredicates graph.now predicates.now }
    ensures ok { IfOk result (λ traces. IsSomeAnd (slice_get graph.now.functions entry) (λ f. AllZip (IsTraceOf graph.now f ends predicates.now) lines.items traces.items)) }
    ensures refused { IfErr result (λ fault. IfRefused fault (λ refusal. IsSomeAnd (slice_get graph.now.functions entry) (λ f. HasWrongLine graph.now f ends lines.items refusal))) }
{
    let mut traces = Vec::new(alloc);
    for line in lines {
        let number = traces.len() + 2;
        match run_of(alloc, graph, entry, predicates, ends, &line)? {
            Some(run) => traces.push(with_run(line, run))?,
            None => return Err(refused_at(56, number)),
        }
    }
    Ok(traces)
}
