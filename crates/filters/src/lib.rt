//! Target graphs: what filters of FQL keep of a control flow automaton (Holzer, Schallhart, Tautschnig, Veith: VMCAI 2009
//! and ASE 2010; what each filter keeps is this project's profile, see docs/QUERY.md).
//!
//! It stands on `fq_core`, `patterns` (sets of numbers), `cfa` and `fql_read`. Start at [`apply`]: where each name that a
//! filter needs is in the graph, it gives exactly the part that the filter's definition says (`kept_by`, specs/Kept.antt).
//! [`missing`] tells the first filter whose name isn't there (`missing_name`, specs/Names.antt).
#![tactic(auto)]

mod applying;
mod blocks;
mod ends;
mod kept;
mod marks;
mod missing_names;
mod names;
mod properties;
mod target_graph;

pub use applying::apply;
pub use missing_names::{lesser, missing};
pub use target_graph::TargetGraph;
