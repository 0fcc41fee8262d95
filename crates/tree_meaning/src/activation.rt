// Functions that run.
use containers::Vector;

/// A function that was called and hasn't returned.
#[derive(Drop)]
pub struct Activation {
    /// How many stand, with this one: from 1 to 64.
    pub depth: u32,
    /// The place of its first cell among all cells.
    pub base: u32,
    /// The places of the first cells of the arrays that it is lent, in the order of its parameters.
    pub arrays: Vector<u32>,
}
