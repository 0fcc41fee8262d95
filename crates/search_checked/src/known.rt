// What is known of a formula.
use cnf::Derivation;
use containers::Vector;
use search::History;

/// What is known of a formula within a budget.
#[derive(Drop)]
pub enum Outcome {
    /// A value for each variable, so that the formula is satisfied.
    Model(Vector<bool>),
    /// A derivation that shows that no assignment satisfies it, and that the checker looked at.
    Refuted(Derivation),
    /// The moves of its search, as many as the budget, after which it isn't finished.
    Open(History),
}
