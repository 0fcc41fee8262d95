//! The syntax trees of C (ISO/IEC 9899:2011, 6.5 to 6.9): tokens are read as the items of a translation unit, or as one
//! expression without sequence points.
//!
//! It stands on `containers`, `fq_core`, `c_values` and `c_lex`. The layers above use the contracts of `parse` and
//! `expression`, which answer the tree that the tokens spell or refuse exactly what the grammar and its limits don't
//! allow, and the laws of [`laws`]: tokens have one outcome. Start at calls.rt.
#![tactic(auto)]

mod calls;
mod cursor;
mod declarations;
mod expr;
mod expressions;
mod items;
pub mod laws;
mod limits;
mod open_statement;
mod operator;
mod separated;
mod sign;
mod simple;
mod statement;
mod statements;
mod stop;
mod types;
mod unit;

pub use calls::{expression, parse};
pub use expr::{ExprForm, ExprTree, Ident};
pub use statement::{CaseLabel, Declarator, Form, Group, Initial, PlaceTree, Statement};
pub use unit::{Body, Item, Parameter, Unit};
