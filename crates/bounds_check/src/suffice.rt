// Whether bounds suffice.
use c_meaning::Input;
use cnf::{Derivation, Formula};
use search::History;

/// Whether bounds suffice, which is that no input has a run that leaves them, as far as a budget tells.
#[derive(Drop)]
pub enum Suffice {
    /// They do: a formula whose models are the inputs that leave the bounds, and a derivation that shows that no assignment
    /// satisfies it.
    Yes {
        formula: Formula,
        derivation: Derivation,
    },
    /// They don't: an input that leaves them.
    Left(Input),
    /// A formula whose models are the inputs that leave the bounds, and the moves of its search, as many as the budget, after
    /// which it isn't finished.
    Open {
        formula: Formula,
        history: History,
    },
}
