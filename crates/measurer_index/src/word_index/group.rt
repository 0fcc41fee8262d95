/// A range of ranks whose words are alike up to a depth.
#[derive(Clone, Copy, Debug, Drop)]
pub(crate) struct Group {
    pub(crate) low: usize,
    pub(crate) high: usize,
    pub(crate) depth: usize,
    /// A number above those of the absent predicates of the words.
    pub(crate) absents: u32,
}
