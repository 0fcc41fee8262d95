// Sources and tokens.
use c_values::Kind;
use containers::Vector;
use fq_core::{Name, Span};

/// A source: its name and its bytes.
#[derive(Debug, Drop)]
pub struct SourceText {
    pub name: Name,
    pub bytes: Vector<u8>,
}

/// What a token is (ISO/IEC 9899:2011, 6.4).
#[derive(Clone, Copy, Debug, PartialEq, Eq)]
pub enum TokenKind {
    /// A word of the profile: an identifier or a keyword.
    Word,
    /// A whole number or a character constant, with its value and its kind.
    Number { value: u64, kind: Kind },
    /// A mark of the profile.
    Mark,
    /// A word, a mark, a number or a string that is C and that the profile leaves out.
    Foreign,
}

/// A token, where it or the macro that gave it is used, and its bytes.
#[derive(Debug, Drop)]
pub struct Token {
    pub kind: TokenKind,
    pub span: Span,
    pub text: Name,
}
