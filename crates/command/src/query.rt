// The query that the words give, over an automaton.
ghost use Rattle.std.specs.Prelude.{List, ℕ, IfOk};
ghost use Rattle.fql_read.specs.Asks.{Asks};
ghost use Rattle.fql_read.specs.Usable.{IsUsable};
ghost use Rattle.cfa.specs.Predicates.{IsPredicates};
ghost use Rattle.goals.specs.Over.{IsPlanOver};
ghost use Rattle.command.specs.Calls.{IsPlannedAs};
ghost use Rattle.command.specs.Calls.{IsQueryAs};

use crate::entry::entry_named;
use crate::types::Automaton;
use cfa::{Graph, Predicates};
use fq_core::Fault;
use fql_read::{Query, read_query};
use goals::{Plan, plan_of};
use predicates::resolve;
use std::alloc::Global;
use suite_problem::Planned;

// The predicates and the goals of a query.
fn plan_asked(alloc: Global, graph: &Graph, query: &Query) -> Result<(Predicates, Plan), Fault>
    requires { IsUsable query.now }
    ensures answer { (bytes : List ℕ) → Asks bytes query.now → IsQueryAs graph.now bytes result }
    ensures predicates { IfOk result (λ made. IsPredicates graph.now made.0) }
    ensures plan { IfOk result (λ made. IsPlanOver graph.now made.1) }
{
    let predicates = resolve(alloc, query, graph)?;
    let plan = plan_of(alloc, query, graph)?;
    Ok((predicates, plan))
}

/// The predicates and the goals that the bytes ask for.
pub fn plan_bytes(alloc: Global, graph: &Graph, bytes: &[u8]) -> Result<(Predicates, Plan), Fault>
    ensures answer { IsQueryAs graph.now bytes.now result }
    ensures predicates { IfOk result (λ made. IsPredicates graph.now made.0) }
    ensures plan { IfOk result (λ made. IsPlanOver graph.now made.1) }
{
    let query = read_query(alloc, bytes)?;
    plan_asked(alloc, graph, &query)
}

/// The entry of this name, with the predicates and the goals that the query's bytes ask for.
pub fn plan_at<'a>(
    alloc: Global,
    automaton: &'a Automaton,
    entry: &str,
    query: &[u8],
) -> Result<Planned<'a>, Fault>
    ensures { IsPlannedAs automaton.now.graph entry.now query.now result }
{
    let entry = entry_named(automaton, entry)?;
    let (predicates, plan) = plan_bytes(alloc, entry.graph, query)?;
    Ok(Planned {
        entry,
        predicates,
        plan,
    })
}
