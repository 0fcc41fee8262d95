//! Inputs that are tried beside a search, and whether a run is within bounds.
//!
//! [`Candidates`] in row.rt is a row of inputs of a function, the same for the same graph and function: words and answers
//! that programs often test for, from the constants of the sources, numbers that leave remainders, small and round numbers,
//! and a generator. [`is_within`] in within.rt goes along the edges of a run with the counters of its frames. It stands on `cfa` for graphs, on `c_values` for
//! kinds, and on `c_meaning` and `reached` for what is within bounds. The layers above use that each candidate has a value
//! of its kind for each parameter (specs/candidates/Row.antt), and that a run whose edges pass is within the bounds (specs/candidates/Within.antt).
//! Which inputs a row has is free.

mod constants;
mod counters;
mod ends;
mod mixing;
mod progressions;
mod reads;
mod row;
mod standing;
mod values;
mod within;

pub use row::Candidates;
pub use within::is_within;
