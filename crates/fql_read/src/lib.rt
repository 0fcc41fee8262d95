//! FQL queries: the bytes of a query are read as its tree, with the filters, the clauses and the predicates that they
//! spell (Holzer, Schallhart, Tautschnig, Veith: VMCAI 2009 and ASE 2010; the language is this project's profile).
//!
//! It stands on `containers`, `fq_core` and `fql_tokens`. The layers above use the contract of `read_query`, which answers
//! the one query that the bytes ask for or refuses them for their cause, and the law `one_query`. Start at calls.rt.
#![tactic(auto)]

mod calls;
mod cover;
mod covers;
mod cursor;
mod filter;
mod filters;
mod kinds;
mod laws;
mod limits;
mod operator;
mod queries;
mod query;
mod splits;
mod stop;

pub use calls::read_query;
pub use cover::{CoverTree, Split};
pub use filter::{Filter, FilterForm};
pub use laws::one_query;
pub use query::{Clause, Query};
