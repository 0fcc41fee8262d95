//! Which faults typing finds: their codes, and where they stand.
//!
//! It stands on the typing rules of `c_type_rules` and `c_types`, and on `tree_contents`, which says what the trees of
//! texts hold. It has no code: each law is the contract of a function with an empty body. Each fault of a unit has one of
//! the codes of typing, and stands where some token of the unit does; so a unit of texts is refused with one code at one
//! place.

pub mod laws;
