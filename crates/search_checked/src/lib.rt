//! A refutation confirmed: the checker looks at the derivation that a search answered, before anybody builds on it, and a
//! certificate can write the formula and the derivation.
//!
//! It stands on `search`, whose derivations check, on `derivation_check` for the checker, and on `certificate`, which says
//! what a certificate can write. Start at [`confirm`]. [`outcome`] is the way from a formula to what is known of it, by both
//! orders of its search, and [`confirmed`] that from what some search found: `suite`, `bounds_check` and `least_input` have
//! no other.
#![tactic(auto)]

mod confirming;
mod known;
pub mod laws;
mod outcomes;
mod rising;

pub use confirming::confirm;
pub use known::Outcome;
pub use outcomes::{confirmed, outcome};
