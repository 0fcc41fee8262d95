//! What the letters of a query's clauses stand for in a control flow automaton: the clauses with their filters applied
//! (FQL: Holzer, Schallhart, Tautschnig, Veith, VMCAI 2009 and ASE 2010).
//!
//! It stands on `fql_read`, `filters` and `filters_paths`. Start at [`apply_clause`], which applies each filter once and gives
//! exactly the clause of specs/ (`applied`), or code 71 for the first `PATHS` that passes a limit; what its letters name is
//! in the graph (`tree_within`, specs/applied_clauses/Within.antt). [`missing_in`] tells the first filter whose name isn't in the graph.

mod applied_tree;
mod applying;
mod bases;
mod missing_names;

pub use applied_tree::AppliedTree;
pub use applying::apply_clause;
pub use bases::base_graph;
pub use missing_names::missing_in;
