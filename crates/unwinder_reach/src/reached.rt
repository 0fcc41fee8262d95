//! The pairs of node and context that walks from a function's entry reach within bounds, guards ignored, and the steps
//! between them.
//!
//! It stands on `cfa`, whose specs/Contexts say what a context is and which pair follows another. `reached` lists the
//! pairs so that each step leads to a later one, and refuses, with code 80, where there are more than 50,000. The
//! definitions are in specs/reached/Reaching, and what the search keeps is in specs/reached/Searching.
//!
//! Frames share their callers, so a step costs one cell. A table gives each row of frames a number, from the words of the
//! running frame and the number of its callers, and the key by which a pair is found again has that number alone. A
//! context is compared with the bounds frame by frame. Start at walks.rt.

mod bounds;
mod context;
mod frames;
mod key;
mod keys;
pub mod laws;
mod pair;
mod search;
mod step;
mod steps;
mod walks;
mod ways;

pub use bounds::Bounds;
pub use pair::{CallFrame, NodeInContext};
pub use step::{Reached, Step};
pub use walks::reached;
