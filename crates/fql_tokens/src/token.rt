// The tokens of queries.
use fq_core::Name;

/// A mark.
#[derive(Clone, Copy, Debug, PartialEq, Eq)]
pub enum Mark {
    /// `^`
    Start,
    /// `$`
    End,
    /// `+`
    Plus,
    /// `->`
    Arrow,
    /// `.`
    Dot,
    /// `*`
    Star,
    /// `==`
    Exactly,
    /// `<=`
    AtMost,
    /// `>=`
    AtLeast,
    /// `(`
    Open,
    /// `)`
    Close,
    /// `,`
    Comma,
    /// `"`
    Quote,
}

/// A word of the query language, which is read in any ASCII case.
#[derive(Clone, Copy, Debug, PartialEq, Eq)]
pub enum Keyword {
    In,
    Cover,
    Passing,
    Nodes,
    Edges,
    Paths,
    Pred,
    Id,
    Not,
    Complement,
    Union,
    Intersect,
    SetMinus,
    Compose,
}

/// The name of a filter that is written with an `@`, which is read in any ASCII case.
#[derive(Clone, Copy, Debug, PartialEq, Eq)]
pub enum FilterName {
    File,
    Line,
    Func,
    Label,
    Call,
    Entry,
    Exit,
    BasicBlockEntry,
    ConditionEdge,
    ConditionGraph,
    DecisionEdge,
    StatementType,
    Definition,
    Use,
}

/// What a token is.
#[derive(Drop)]
pub enum Sign {
    Mark(Mark),
    /// A word, with the word of the query language that it is, and as it is written.
    Word(Option<Keyword>, Name),
    Filter(FilterName),
    /// A number below 1,000,000,000.
    Number(u32),
    /// The text of a predicate, without its braces.
    Predicate(Name),
    /// The name of a file.
    File(Name),
}

/// A token, and the column of its first byte: its place among all bytes of the query, from 1.
#[derive(Drop)]
pub struct Token {
    pub sign: Sign,
    pub column: u32,
}
