// Plans.
use crate::goal::Goal;
use containers::Vector;
use fq_core::Name;
use patterns::{Letter, Pattern};

/// The pattern of a passing clause, and whether `^` stands before it and `$` after it.
#[derive(Drop)]
pub struct PassingPattern {
    pub pattern: Pattern<Letter>,
    pub first: bool,
    pub last: bool,
}

/// The goals of a query, and what a run that covers one must also match.
#[derive(Drop)]
pub struct Plan {
    /// The goals, in order.
    pub goals: Vector<Goal>,
    /// A match of a goal begins at the first state.
    pub first: bool,
    /// A match of a goal ends at the last state.
    pub last: bool,
    /// What the passing clause asks of a run, where there is one.
    pub passing: Option<PassingPattern>,
    /// The texts of the quoted letters, by number.
    pub quotes: Vector<Name>,
    /// The texts of the predicates, by number.
    pub predicates: Vector<Name>,
}
