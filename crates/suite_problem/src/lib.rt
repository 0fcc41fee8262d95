//! What is given where inputs are searched for: an entry of an automaton, a query's predicates and goals over it, the bounds of
//! runs and the ends that count, and one goal of these. What holds of them stands on their types, so that no call asks for it.
//! Beside them what generation answers, so that who prints it needs no search.
#![tactic(auto)]

mod entry;
mod generated;
mod given;
mod goal;
mod planned;

pub use entry::Entry;
pub use generated::Generated;
pub use given::Given;
pub use goal::Goal;
pub use planned::Planned;
