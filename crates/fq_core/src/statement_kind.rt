// The kinds of statements that edges of a control flow automaton come from.

/// The kind of the innermost statement that makes an edge (ISO/IEC 9899:2011, 6.7 and 6.8).
#[derive(Clone, Copy, Debug, PartialEq, Eq)]
pub enum StatementKind {
    If,
    For,
    While,
    Do,
    Switch,
    Assign,
    Call,
    Return,
    Decl,
    Assert,
    Assume,
    /// `break` and `continue`.
    Jump,
    Label,
    /// `;`, and a block of no statement.
    Empty,
}
