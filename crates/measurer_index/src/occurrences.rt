//! Where numbers stand in a list.
//!
//! Start at [`Occurrences`], a table that is made of a list once, in time linear in its length and in its greatest number,
//! and then tells the first place of a number from any place on. The definitions are in specs/occurrences/Places.antt. The layers above
//! use the contracts of its calls.

mod occurrences;
mod tables;

pub use occurrences::Occurrences;
