//! Clauses, formulas in conjunctive normal form, and derivations by resolution.
//!
//! It stands on `containers` and `fq_core`. A clause is to contracts the rising list of its literals, and a
//! formula and a derivation are plain data. The layers above use that `resolve` answers exactly the resolvent,
//! what `Checks` says of a derivation, and the law that no assignment satisfies a formula over which one checks. Start
//! at resolution.rt.
//!
//! It has these modules too:
//!
//! - [`literal_marks`]: Sets of literals, as tables with a mark for each literal that has a place.
#![tactic(auto)]

mod clause;
mod derivation;
mod dimacs_text;
mod formula;
mod laws;
mod literal;
pub mod literal_marks;
mod numbers;
mod resolution;

pub use clause::Clause;
pub use derivation::{Derivation, DerivationLine};
pub use dimacs_text::{dimacs, push_clause, push_dimacs, push_number};
pub use formula::Formula;
pub use laws::{checked_formulas_have_no_model, one_clause_per_set};
pub use literal::{are_literals, is_literal, literal_key, negation};
pub use numbers::clause_before;
pub use resolution::{can_resolve, resolve};
