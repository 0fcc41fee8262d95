// What comes next.
use cfa::{State, Trap};

/// What comes next in a state.
#[derive(Drop)]
pub enum Stepped {
    /// The run takes an edge, by its number, and goes on in a state.
    Moved { edge: u32, state: State },
    /// The run has returned, with a value of the entry's kind where it gives one.
    Returned { value: Option<u64> },
    /// A trap ends the run.
    Trapped(Trap),
    /// An assumption doesn't hold.
    Blocked,
    /// A call would make more than 64 frames.
    TooDeep,
}

/// What a step made of a state in place. With the state that it leaves it is what comes next (`stepped`).
#[derive(Drop)]
pub enum Step {
    /// The run took an edge, by its number, and goes on in the state.
    Moved(u32),
    /// The run has returned, with a value of the entry's kind where it gives one.
    Returned { value: Option<u64> },
    /// A trap ends the run.
    Trapped(Trap),
    /// An assumption doesn't hold.
    Blocked,
    /// A call would make more than 64 frames.
    TooDeep,
}
