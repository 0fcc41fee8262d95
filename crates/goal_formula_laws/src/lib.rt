//! The modules `unwound_laws` and `formula_laws`, none of which stands on one behind it.
//!
//! - [`unwound_laws`]: What the entries of an unwinding say of inputs that leave its bounds.
//! - [`formula_laws`]: What follows from the definitions of formulas and of the bits of numbers, for the search of
//!   least inputs.
#![tactic(auto)]

pub mod formula_laws;
pub mod unwound_laws;
