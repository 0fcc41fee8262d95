//! Words of bits over the wires of a circuit: the arithmetic of C's integers (ISO/IEC 9899:2011, 6.3.1 and 6.5) as gates.
//!
//! A [`Word`] is a row of 64 literals, the lowest bit first. In each world it is a pattern of 64 bits, and where this is a
//! value of a kind the word is sign-extended or zero-extended as such patterns are. Each call is named for the call of
//! `c_values` whose work it does by gates: in every world the word that it answers is what that call gives for the
//! patterns of the operands, and the literal beside it, where a call may give none, holds just where it gives one. A word
//! that is answered is one of its kind in every world, also where its literal doesn't hold. Older literals keep what they
//! hold, no call makes an input, each uses at most 30 wires for each unit of its operation's weight, and [`choose`] at
//! most 256; so it is too where a gate found no memory, which is the one other answer.
//!
//! Only the bits below the kind's width are computed, and the rest are the highest of them again or no. The circuits are
//! the field's plain ones: a ripple-carry adder, differences by the complement, comparisons by the carry, products by
//! shifted sums, shifts by one power of two after another, and restoring division of magnitudes with the signs put back.
//!
//! The definitions are in specs/: `Words` (what a word is in a world), `Weights` (the bounds on wires), and for the parts
//! below `Rows`, `Biases` and `Signs`. The gates themselves are in [`gates`]. The crate stands on circuit and c_values.
#![tactic(auto)]

mod bitwise;
mod comparisons;
mod division;
pub mod gates;
mod long_division;
mod magnitudes;
mod products;
mod rows;
mod shifts;
mod sums;
mod words;

pub use bitwise::{and, choose, not, or, xor};
pub use comparisons::{equal, less, nonzero};
pub use division::{div, rem};
pub use products::mul;
pub use shifts::{shl, shr};
pub use sums::{add, neg, sub};
pub use words::{Word, constant, convert, extended};
