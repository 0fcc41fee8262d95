//! The predicates of a query beside a control flow automaton: each text is read as an expression of C (ISO/IEC
//! 9899:2011, 6.5), and typed in each scope of the automaton.
//!
//! It stands on `c_lex`, `c_parse` and `c_types` for the way from a text to its expressions, and on `fql_read` and `cfa`
//! for queries and automata. The layers above use the contract of `resolve`, which answers the predicates of a query or
//! refuses them for the first cause that stands, and what it answers meets `IsPredicates` of `cfa`; the law
//! `one_outcome` says that a query has one answer. Start at resolving.rt.
#![tactic(auto)]

pub mod laws;
mod narrowing;
mod reading;
mod resolving;
mod typing;

pub use resolving::resolve;
