//! A checker of derivations by resolution.
//!
//! It stands on `literal_marks` for sets of literals, and on `cnf`, which says when a derivation checks over a formula, and shows that then no assignment
//! satisfies the formula. `Checker::prepare` takes all memory, and `Checker::check` none: its answer is Yes exactly
//! where the derivation checks, and else names the first line that isn't right, or says that no empty clause ends it.
//!
//! The clause so far of a chain is kept as marks on a table of literals, so that a step costs as much as reading its
//! antecedent. Each literal stands at its key in the table, or, where variables are numbered with great gaps, where a
//! binary search finds it among those that occur. Start at checker.rt.
#![tactic(auto)]

mod chain;
mod checker;
mod line;
mod listing;
mod table;
mod verdict;

pub use checker::Checker;
pub use cnf::{Derivation, DerivationLine};
pub use verdict::Verdict;
