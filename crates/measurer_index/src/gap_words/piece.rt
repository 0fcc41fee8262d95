ghost use Rattle.std.specs.Prelude.{◌≡◌};
ghost use Rattle.measurer_index.specs.gap_words.Parts.{is_edge};

/// What a gap goes over: edges of a set, by its place among the sets of gaps, no fewer than the least number and no more than
/// the greatest one, where there is one.
#[derive(Clone, Copy, Debug, Drop)]
pub(crate) struct Span {
    pub(crate) set: usize,
    pub(crate) least: u32,
    pub(crate) most: Option<u32>,
}

/// A piece of a word with gaps.
#[derive(Clone, Copy, Debug, Drop)]
pub(crate) enum Piece {
    /// An edge, by its number.
    Edge(u32),
    /// A node, by its number.
    Node(u32),
    /// A predicate that holds, by its number.
    Predicate(u32),
    /// A predicate that doesn't hold, by its number.
    Absent(u32),
    /// A number of edges of a set.
    Gap(Span),
}

impl Piece {
    /// Whether it is an edge.
    pub(crate) fn is_edge(&self) -> bool
        ensures { result ≡ is_edge self.now }
    {
        matches!(self, Piece::Edge(_))
    }
}
