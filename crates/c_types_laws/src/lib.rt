//! The modules `tree_contents`, `typing_laws`, `typing_faults` and `typing_fits`, none of which stands on one behind
//! it.
//!
//! - [`tree_contents`]: What the trees of a unit hold.
//! - [`typing_laws`]: What follows from the typing rules of `c_type_rules` and `c_types` alone.
//! - [`typing_faults`]: Which faults typing finds.
//! - [`typing_fits`]: What typing makes is fit for lowering.
#![tactic(auto)]

pub mod tree_contents;
pub mod typing_faults;
pub mod typing_fits;
pub mod typing_laws;
