//! A table that several owners share, and that each of them changes for itself.
//!
//! `Table` is seen by contracts as the list of its items, so that sharing is a matter of memory alone. The items lie in
//! chunks. A copy shares all of them, and a change copies the chunk of its item alone, where another table shares it. The
//! crate stands on `containers`; `sym_expr` keeps the cells of states in it.

mod chunk;
mod table;

pub use table::Table;
