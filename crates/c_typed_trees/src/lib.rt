//! The typed trees of C: a unit of which each name is tied to what it stands for, each expression carries the kind of
//! its value, and each conversion is written out (ISO/IEC 9899:2011, 6.3.1 and 6.5 to 6.9).
//!
//! They stand on `containers`, `fq_core` and `c_values`, and share the variables and input functions of `cfa`. They are
//! plain data: vectors and boxes are seen by contracts as what they hold, so that a typed tree is seen as a tree.
//! `c_types` says which typed tree a unit has, and `c_lower` makes its graph. What lowering needs of a unit, and typing
//! promises, is `IsFitting` of `specs/Fitting.antt`.
#![tactic(auto)]

mod expression;
mod statement;
mod unit;

pub use cfa::{InputFunction, Variable, VariablePlace};
pub use expression::{Callee, TypedCall, TypedExpr, TypedExprForm, TypedPlace};
pub use statement::{TypedForm, TypedGroup, TypedStatement};
pub use unit::{Global, Typed, TypedFunction};
