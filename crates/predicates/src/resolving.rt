// The call of the crate.
ghost use Rattle.std.specs.Prelude.{◌≡◌, ℕ, Ok, Err, IfOk};
ghost use Rattle.fq_core.specs.declared.refusal.Place.{Place};
ghost use Rattle.fq_core.specs.Refusals.{IsUnlessMemory, refusal};
ghost use Rattle.cfa.specs.declared.state.Predicates.{Predicates};
ghost use Rattle.cfa.specs.Predicates.{IsPredicates};
ghost use Rattle.predicates.specs.Outcome.{ArePredicatesOf, IsOutcome, IsRefused};

use crate::laws::{one_outcome, predicates_fit};
use crate::reading::trees_of;
use crate::typing::meanings_of;
use cfa::{Graph, Predicates as GraphPredicates};
use containers::{TryClone, Vector};
use fq_core::{Fault, Name, Place as RefusalPlace, Refusal};
use fql_read::Query;
use std::alloc::Global;

/// The greatest number of predicates of a query.
const MOST: usize = 64;

fn refusal(code: u16, place: RefusalPlace) -> Fault
    ensures { result ≡ refusal code place }
{
    Fault::Refused(Refusal { code, place })
}

// The predicates of texts beside an automaton, or the cause for which they are refused.
fn predicates_of(
    alloc: Global,
    texts: &Vector<Name>,
    graph: &Graph,
) -> Result<GraphPredicates, Fault>
    ensures { IsOutcome graph.now texts.now result }
{
    if texts.len() > MOST {
        return Err(refusal(
            67,
            RefusalPlace::Limit {
                number: MOST as u64,
            },
        ));
    }
    let Some(trees) = trees_of(alloc, texts)? else {
        return Err(refusal(65, RefusalPlace::QueryWhole));
    };
    let Some(meanings) = meanings_of(alloc, graph, &trees)? else {
        return Err(refusal(66, RefusalPlace::QueryWhole));
    };
    Ok(GraphPredicates {
        texts: texts.try_clone(alloc)?,
        meanings,
    })
}

/// The predicates of a query beside a control flow automaton: their texts in the query's order and, by predicate and
/// scope, the expression that the text is where the scope's variables are declared.
///
/// A text is read as a source of its own, with its comments and directives, and its tokens as one expression without
/// sequence points (ISO/IEC 9899:2011, 6.5 and Annex C). In a scope where a name of it is unknown or stands for an array,
/// or something else is wrong in it, it has no expression.
///
/// # Errors
///
/// The first of these causes, in this order. Code 67, with the limit 64, where the query has more than 64 predicates. Code
/// 65 where some text isn't read: it is refused as a source, or its tokens as an expression. Code 66 where some predicate
/// has no expression in any node's scope; a scope that no node has doesn't count. Codes 65 and 66 name the whole query.
pub fn resolve(alloc: Global, query: &Query, graph: &Graph) -> Result<GraphPredicates, Fault>
    // What is answered are the query's predicates beside the automaton, and a refusal has its cause.
    ensures outcome { IsOutcome graph.now query.now.predicates result }
    // The predicates are answered, where there are such.
    ensures accepts { (p : Predicates) → ArePredicatesOf graph.now query.now.predicates p → IsUnlessMemory result (Ok p) }
    // Where there is a cause, it is refused.
    ensures refuses { (code : ℕ) (p : Place) → IsRefused graph.now query.now.predicates code p → IsUnlessMemory result (Err (refusal code p)) }
    // They go with the automaton.
    ensures fits { IfOk result (λ p. IsPredicates graph.now p) }
{
    one_outcome();
    predicates_fit();
    graph.well_formed();
    predicates_of(alloc, &query.predicates, graph)
}
