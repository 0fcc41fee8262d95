//! The arithmetic of C's integers (ISO/IEC 9899:2011, 6.3.1 and 6.5), the bottom layer of all that speaks of values.
//!
//! A [`Kind`] is an integer type. A value of a kind is a whole number of its range, kept as a pattern of 64 bits
//! that is sign-extended or zero-extended. Each operator is the operation on whole numbers and then *fit*: the one
//! number of the kind's range that equals the result modulo 2 to its width. Where C leaves a choice this profile takes
//! two's complement: a conversion, sum, difference or product out of the range wraps, `>>` rounds down, and `<<` is a
//! product with a power of two. There is no quotient and no remainder by 0 or of the least number by -1, no shift by an
//! amount outside of 0 to the width less 1, and each other operator has a value at all operands.
//!
//! The definitions are in specs/: `Kind` (kinds, numbers, patterns, fit and conversions), `Operations` (the operators)
//! and `Laws` (what follows from them, each the contract of a function of [`laws`]). Each call ensures that its result is
//! the definition's pattern and which number that is. No call takes memory, and each body is a few operations of the
//! machine. The crate stands on std alone.
#![tactic(auto)]

mod arithmetic;
mod bitwise;
mod comparisons;
mod conversions;
mod division;
mod evaluation;
mod kinds;
pub mod laws;
mod operators;
mod shifts;

pub use arithmetic::{add, mul, neg, sub};
pub use bitwise::{and, not, or, xor};
pub use comparisons::{equal, less};
pub use conversions::{common, convert, is_value, promoted};
pub use division::{div, has_quotient, is_overflow_divisor, is_zero_divisor, rem};
pub use evaluation::{binary_value, unary_value};
pub use kinds::{Kind, is_kind};
pub use operators::{BinaryOp, UnaryOp, binary_kind, is_shift, unary_kind};
pub use shifts::{is_shift_amount, shl, shr};
