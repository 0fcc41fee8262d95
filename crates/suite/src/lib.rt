//! Suites of inputs: generation.
//!
//! Start at [`generate`] in generating.rt: it unwinds the runs of what is given (`suite_problem`, `unwinder`), and answers each goal of
//! the plan in order. [`Sought`] in sought.rt is a goal that is sought: the unwinding, and beside it the inputs that are run
//! (pool.rt, `candidates`); what holds of them stands on it. Candidates are run first. Before the first answer all goals are gone
//! over in rounds (first_round.rt), so that what is found for one goal answers others as well: once for what a short search
//! finds, and once, where several goals are open, by the whole search, whose history isn't made. A goal that no input hits so
//! far is then decided ([`decide`] in deciding.rt): its formula (`goal_formula`) is searched (`search`); a model is made into an
//! input, which is replayed (`path_runner`) and measured (`measurer`); a derivation is confirmed (`search_checked`); and who
//! watches is shown a search that spent its budget. The layers above use the contract of [`generate`]: the answers are true of
//! the goals as specs/Generated.antt says (`IsGenerated`), by specs/Made.antt for one goal (`IsDecided`).
//!
//! [`reduce`] and its laws are those of `suite_reduction`.
//!
//! It has these modules too:
//!
//! - [`candidates`]: Inputs that are tried beside a search, and whether a run is within bounds.
#![tactic(auto)]

mod by_lessons;
pub mod candidates;
mod decided;
mod deciding;
mod first_round;
mod generating;
mod making;
mod pool;
mod replaying;
mod sought;

pub use decided::Decided;
pub use deciding::decide;
pub use generating::generate;
pub use replaying::replay;
pub use sought::Sought;
pub use suite_reduction::{kept_are_needed, kept_hit_all, reduce};
