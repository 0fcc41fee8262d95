// How a run by the trees ends.
use cfa::Trap;

/// How a run of a function ends, by the meaning of its tree and with so many turns.
#[derive(Clone, Copy, Debug, PartialEq, Eq)]
pub enum TreeEnd {
    /// The function returned, with a value of its kind where it gives one.
    Returned { value: Option<u64> },
    /// A trap ended the run.
    Trapped(Trap),
    /// An assumption didn't hold.
    Blocked,
    /// A call would have made more than 64 activations.
    TooDeep,
    /// A loop's body, or a called function, was to begin, and no turn was left.
    OutOfTurns,
}
