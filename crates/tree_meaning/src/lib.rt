//! What a typed unit means, by recursion on its trees: close to the words of ISO/IEC 9899:2011, 6.5 and 6.8.
//!
//! `specs/Outcomes.antt` has what stands while a function runs and how things go on or end, `Activations` the cells of a
//! function that runs, and `Expressions`, `Statements`, `Loops`, `Switch` and `Calls` what each form does. `Trees` gives each
//! tree its meaning, and `Ends` says how a run of a function ends. Nothing there speaks of an automaton.
#![tactic(auto)]

mod activation;
mod agenda;
mod calls;
mod ends;
pub mod laws;
mod loops;
mod machine;
mod numbers;
mod places;
mod rest;
mod run;
mod scene;
mod statements;
mod steps;
mod stop;
mod store;
mod switch;
mod task;
mod values;
mod way;

pub use activation::Activation;
pub use ends::TreeEnd;
pub use run::tree_run;
pub use way::Way;
