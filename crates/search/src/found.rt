// What a search finds.
use crate::moves::History;
use cnf::Derivation;
use containers::Vector;

/// What a search finds within its budget.
#[derive(Drop)]
pub enum Found {
    /// The value of each variable, from 1, of an assignment that satisfies the formula.
    Model(Vector<bool>),
    /// A derivation that shows that no assignment does.
    NoModel(Derivation),
    /// As many moves as the budget allows, after which the search isn't finished.
    Spent(History),
}
