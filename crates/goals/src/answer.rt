// What is found of goals.

/// What is found of a goal.
#[derive(Clone, Copy, Debug, PartialEq, Eq)]
pub enum Answer {
    /// An input of this number, from 1, covers it.
    Covered { input: u32 },
    /// No input that was measured covers it.
    Missed,
    /// No input within the bounds covers it, with a derivation that was checked.
    Refuted,
    /// The search ended before it was known.
    Undecided,
}
