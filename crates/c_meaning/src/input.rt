// Inputs.
use containers::Vector;

/// An input: a word for each parameter of the entry, and the answers that input functions give in turn.
#[derive(Debug, Drop)]
pub struct Input {
    pub words: Vector<u64>,
    pub answers: Vector<u64>,
}
