// What may be wrong with one input.

/// What may be wrong with one input.
#[derive(Clone, Copy, Debug, PartialEq, Eq)]
pub enum Misfit {
    /// It has another form, or another number of arguments.
    Shape,
    /// One of its numbers is no word.
    Range,
}
