//! The meaning of a control flow automaton: the state in which a run begins, and the step from each state to the next.
//!
//! It stands on `cfa` for automata, states and values, and on `c_values` for the arithmetic of C. The layers above use
//! the contracts of `start` and `step`: the state that `specs/Starts.antt` says, and what `specs/Steps.antt` says comes
//! next, exactly; a step leads from states of the graph to states of the graph. `value_in` and `answer_of` give the
//! value of an expression in a state and that of an answer, as a step uses them. `specs/Runs.antt` says what a run is,
//! with no limit, and which ends count, `specs/Pairs.antt` what its contexts are and when it is within bounds; `laws` has
//! what follows from them. Start at starting.rt and stepping.rt.
#![tactic(auto)]

mod cells;
mod ends;
mod evaluate;
mod input;
pub mod laws;
mod starting;
mod state;
mod state_values;
mod stepped;
mod stepping;
mod store;
mod words;

pub use cfa::{Frame, State, Trap};
pub use ends::Ends;
pub use input::Input;
pub use starting::start;
pub use state_values::{answer_of, value_in};
pub use stepped::{Step, Stepped};
pub use stepping::step;
