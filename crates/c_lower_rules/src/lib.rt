//! The modules `cfa_order`, `graph_of` and `graph_rules`, none of which stands on one behind it.
//!
//! - [`cfa_order`]: Orders of the nodes of a control flow automaton, by which no walk comes to one pair of node and
//!   context twice.
//! - [`graph_of`]: The table that makes the control flow automaton of a typed unit.
//! - [`graph_rules`]: The law that the automaton of a typed unit meets the rules of automata, where the unit fits.
#![tactic(auto)]

pub mod cfa_order;
pub mod graph_of;
pub mod graph_rules;
