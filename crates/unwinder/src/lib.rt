//! The unwinder: all runs of a function within bounds, in all worlds at once.
//!
//! Start at `unwinding.rt`. [`unwind`] takes the pairs of node and context that are reached within the bounds, one by one in
//! their order, so that each comes before those to which its steps lead. An agenda keeps for each place the ways into it
//! that wait, each with a literal that holds where a run comes that way, and a symbolic state. Taking a place
//! (`taking.rt`) makes one state of its ways (`gathering.rt`, `merging.rt`, `guards.rt`), tells each predicate there (`telling.rt`)
//! and whether the run ends there in a way that counts (`ending.rt`), makes an entry for each way, and by one symbolic step
//! a way for each step from the pair (`onward.rt`). So for every input the entries whose guards hold in its world tell, in
//! order, of the states of its longest beginning within the bounds, and of no more.
//!
//! The definitions are in specs/: `Unwinding` (what an unwinding is, and its refusals), `Lists` (what its entries say of
//! every input's run), and for the parts below `Frames`, `Agenda`, `Meeting`, `Guards`, `Onward`, `Place`, `Putting` and `Progress`.
//! The crate stands on `reached` for pairs and steps, on `unwinding_size` for the bound on wires, on `input_words` for
//! worlds, and on `sym_steps` and `sym_expr` for states and expressions as words over a circuit.
//!
//! It has these modules too:
//!
//! - [`input_words`]: The inputs of all runs of a function, as words over a circuit.
#![tactic(auto)]

mod agenda;
mod arrival;
mod copying;
mod ending;
mod gathering;
mod guards;
pub mod input_words;
mod merging;
mod onward;
mod taking;
mod telling;
mod unwinding;
mod unwound;

pub use unwinding::unwind;
pub use unwound::{Entry, Unwound};
