//! Lowering: the control flow automaton of a typed unit.
//!
//! It stands on `graph_of` for the table that says which automaton a unit has, and on `graph_rules` for the law that such
//! an automaton meets the rules of `cfa`. The layers above use the contract of [`lower`], which answers exactly the
//! automaton that the table makes, and refuses exactly those with more than 40,000 edges. [`make_parts`] gives the same
//! automaton's parts, of any typed unit.
//!
//! A function here has the name of the row that it makes. Its contract says that the row is made behind the parts that
//! are there, and that too many edges are told of only where the row would have them. Start at unit_graph.rt.
#![tactic(auto)]

mod around;
mod calls;
mod edges;
mod labels;
mod make;
mod operands;
mod places;
mod rows;
mod scopes;
mod statements;
mod stop;
mod unit_graph;
mod units;
mod values;

pub use stop::Stop;
pub use unit_graph::lower;
pub use units::make_parts;
