//! What follows from the definitions of formulas and of the bits of numbers, for the search of least inputs.
//!
//! It has no code. The definitions are in specs/: `Units` has formulas with unit clauses at their end, `Bits` the highest
//! bit in which two numbers differ, `Orders` the order of lists of numbers in which the first difference decides; `Laws`
//! has the laws. It stands on `cnf` for formulas and derivations, on `path_runner` for the number of a row of bits and on
//! `input_words` for the low bits of a number. Start at [`laws`].

pub mod laws;
