// A query over an automaton.
ghost use Rattle.cfa.specs.Predicates.{IsPredicates};
ghost use Rattle.goals.specs.Over.{IsPlanOver};

use crate::entry::Entry;
use cfa::Predicates;
use goals::Plan;

/// An entry, and the predicates and the goals of a query over its automaton.
#[derive(Drop)]
pub struct Planned<'a> {
    pub entry: Entry<'a>,
    pub predicates: Predicates,
    pub plan: Plan,
    ghost are_predicates: { IsPredicates entry.graph.now predicates },
    ghost is_plan: { IsPlanOver entry.graph.now plan },
}
