//! A list whose tail other lists may share.
//!
//! `Chain` is seen by contracts as the list of its elements, so that sharing is a matter of memory alone: what is put
//! before a list takes one cell, and a copy none. It stands on std alone; `cfa` keeps scopes in it.

mod chain;

pub use chain::{Chain, ChainIter};
