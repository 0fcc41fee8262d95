//! Orders of the nodes of a control flow automaton, by which no walk comes to one pair of node and context twice.
//!
//! It stands on `cfa`. `specs/cfa_order/Order.antt` says by each edge alone when nodes stand in an order: ranks rise along edges,
//! but for back edges, which lead to the head of the innermost loop. The layers that make automata show it row by row,
//! and the law here gives what walks over the whole automaton do.

ghost use Rattle.cfa.specs.Contexts.{IsOnce};
ghost use Rattle.c_lower_rules.specs.cfa_order.Order.{IsOrdered};

use cfa::Graph;

/// The law of orders: a graph whose nodes stand in some order is once, as each walk goes on to pairs that are new.
pub fn ordered_is_once(graph: &Graph)
    requires { IsOrdered graph.now }
    ensures { IsOnce graph.now }
{
    graph.well_formed();
}
