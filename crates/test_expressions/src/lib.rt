//! Expressions for the tests and the programs of bench/ that stand on `sym_expr`: read from lists of parts, tested against
//! the rules for expressions, weighed and translated.
//!
//! [`translated`] meets the conditions of `sym_expr::translate` for any expression and store, or answers none, and
//! [`put_at`] those of `sym_expr::put`.
#![tactic(auto)]

mod parts;
mod stores;
mod weights;

pub use parts::{Part, expression, left_nested};
pub use stores::{Places, free_store, put_at, translated};
pub use weights::weight;
