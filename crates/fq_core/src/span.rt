// Places in a source.

/// The place of a token or of a longer form in the sources.
#[derive(Clone, Copy, Debug, PartialEq, Eq)]
pub struct Span {
    /// The place of the file in the list of sources, from 0.
    pub file: u32,
    /// The line, from 1. Only a line feed ends a line.
    pub line: u32,
    /// The column in bytes, from 1.
    pub column: u32,
    /// The byte at which it begins, from 0.
    pub start: u32,
    /// The byte after its last one, from 0.
    pub end: u32,
}
