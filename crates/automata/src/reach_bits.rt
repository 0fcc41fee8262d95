/// What is known of a path so far: where each leaf may begin, a leaf from which on to look for one that may, if any may, and
/// whether some match has been found.
#[derive(Debug, Drop)]
pub struct ReachBits<B> {
    pub(crate) marks: Vec<B>,
    pub(crate) live: Option<usize>,
    pub(crate) hit: B,
    pub(crate) spent: bool,
}
