// What is answered of a derivation.

/// What a derivation is over a formula.
#[derive(Clone, Copy, Debug, PartialEq, Eq)]
pub enum Verdict {
    /// All lines are right, and the last one has the empty clause.
    Yes,
    /// The first line, from 1, that isn't right.
    BadStep { line: u32 },
    /// All lines are right, and there is no last line with the empty clause.
    NoEmptyClause,
}
