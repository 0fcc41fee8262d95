// How a search ends, before its history is made.
use crate::found::Found;
use crate::moves::Step;
use cnf::DerivationLine;
use containers::Vector;

/// How a search ends.
#[derive(Drop)]
pub(crate) enum Ending {
    /// With a model or a derivation.
    Ended(Found),
    /// The budget is spent: the steps, whose jumps learned these lines in turn.
    Spent {
        steps: Vec<Step>,
        lines: Vector<DerivationLine>,
    },
}
