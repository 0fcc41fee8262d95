//! The k-bounded paths of a target graph, as the letter `PATHS` of FQL needs them (Holzer, Schallhart, Tautschnig, Veith:
//! VMCAI 2009 and ASE 2010; what the bound counts, and where a path begins and ends, is this project's profile, see
//! docs/QUERY.md).
//!
//! It stands on `filters` (target graphs), `cfa` and `containers`. The definitions are in specs/: `Paths` says what a
//! path is and which list of them is meant, and `Outcome` what the limits make of that list. Start at [`paths`] in
//! listing.rt.
#![tactic(auto)]

mod borders;
mod edge_ends;
mod fault;
mod ground;
pub mod laws;
mod listing;
mod living;
mod search;
mod totals;
mod walk;

pub use fault::PathFault;
pub use listing::paths;
