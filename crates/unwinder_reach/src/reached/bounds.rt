// The bounds of walks.

/// How far walks go. Bounds on the numbers of loop turns, frames and answers make the pairs finitely many.
#[derive(Clone, Copy, Debug, PartialEq, Eq)]
pub struct Bounds {
    /// How often each loop's back edge is taken at most, from its entry on.
    pub turns: u32,
    /// How many frames there are at most, from 1 to 64.
    pub frames: u32,
    /// How many answers are taken at most.
    pub answers: u32,
}
