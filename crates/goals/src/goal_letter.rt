// The letters of goals.

/// A letter of a goal's word.
#[derive(Clone, Copy, Debug, PartialEq, Eq, Hash)]
pub enum GoalLetter {
    /// A node, by its number.
    Node(u32),
    /// An edge, by its number.
    Edge(u32),
    /// A predicate, by its place among the query's.
    Predicate(u32),
    /// A predicate that doesn't hold, by its place among the query's.
    Absent(u32),
    /// A quoted expression, by the place of its text among the plan's.
    Quoted(u32),
}
