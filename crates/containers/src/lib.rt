//! The bottom of the workspace: a vector and a box that contracts see as what they hold.
//!
//! `Vector` is seen as the list of its elements and `Boxed` as its value, so that a tree, a graph or a formula
//! made of them is plain data to contracts. `Same` tells whether two values are equal to contracts, and
//! `TryClone` makes an equal value or answers that memory ran out. The crate stands on std alone.
//!
//! It has these modules too:
//!
//! - [`chains`]: A list whose tail other lists may share.
//! - [`shared_tables`]: A table that several owners share, and that each of them changes for itself.
#![tactic(auto)]

mod boxed;
pub mod chains;
mod same;
pub mod shared_tables;
mod try_clone;
mod vector;

pub use boxed::Boxed;
pub use same::{Same, same_items};
pub use try_clone::TryClone;
pub use vector::Vector;
