//! Whether bounds suffice: a proof, with a derivation, that no input has a run that leaves them.
//!
//! Start at [`bounds_suffice`] in sufficing.rt. It unwinds the runs of a function within bounds, where any end counts
//! (`unwinder`): by unwound_laws an input leaves the bounds exactly where no entry that holds in its world has ended. One
//! literal of the unwinding's circuit says so, and goal_formula gives its formula (`staying.rt`), which is searched (`search`).
//! A model is an input that leaves the bounds (`leaving.rt`); a derivation is confirmed (`search_checked`) before the bounds are
//! said to suffice; a search that spent its budget is handed out with its formula. [`bounds_formula`] in formula.rt gives that
//! formula alone, for whoever checks a derivation over it.
//!
//! The definitions are in specs/: `Bounded` (what the calls promise of an entry and bounds), `Leaving` (when a formula is exact
//! for leaving the bounds), `Sufficing` (what is said of each answer), `Laws` (where no input leaves the bounds, a goal that is
//! refuted within them is unreachable), and for the parts below `Parts`.
#![tactic(auto)]

mod bounded;
mod formula;
pub mod laws;
mod leaving;
mod staying;
mod suffice;
mod sufficing;

pub use bounded::Bounded;
pub use formula::bounds_formula;
pub use suffice::Suffice;
pub use sufficing::bounds_suffice;
