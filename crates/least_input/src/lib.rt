//! Least inputs: the least input whose run within bounds hits a goal.
//!
//! Start at [`find_least`] in finding.rt. The formula of a goal (`goal_formula`) is searched (`search`). From any model of it
//! the bits of inputs are set one by one, in the order in which they decide which of two inputs is less (lowest.rt): to 0 where
//! the model has 0 or a search finds another model, else to 1, and then a derivation shows why, which is confirmed
//! (`search_checked`). How one more bit is set by a unit clause stands in descent.rt. The input of the last model is the least
//! (input.rt).
//!
//! The layers above use the contract of [`find_least`] (specs/Answers.antt): the input that is found is the least of all
//! (specs/Least.antt, by the order of specs/Order.antt), with what shows of each of its bits that is 1 that it can't be 0
//! (specs/Fixing.antt).
#![tactic(auto)]

mod descent;
mod finding;
mod input;
mod least;
mod lowest;
mod order;

pub use finding::find_least;
pub use least::{Fixed, Least};
