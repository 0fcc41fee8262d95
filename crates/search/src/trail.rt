// The trail.

/// A literal on the trail, and the number of the clause that implied it, or none where it was decided.
#[derive(Clone, Copy, Debug)]
pub(crate) struct Entry {
    pub literal: i32,
    pub reason: Option<u32>,
}
