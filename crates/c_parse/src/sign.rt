// What the grammar calls a token (ISO/IEC 9899:2011, 5.1.1.2p1, phase 7, and annex A).
ghost use Rattle.std.specs.Prelude.{◌≡◌, find, map, IfOk};
ghost use Rattle.std.specs.Str.{bytes_eq};
ghost use Rattle.c_parse.specs.Signs.{spelling, type_spelling, name_or_foreign, word_sign, punctuator_sign, sign_of, terminal_of};

use c_lex::{Token, TokenKind, is_foreign_mark, is_foreign_word};
use c_values::Kind;
use fq_core::{Memory, Name, Span};
use std::alloc::Global;

/// The special symbols of the grammar: its punctuators (6.4.6) and keywords (6.4.1), `assert` and `assume` among them.
#[derive(Clone, Copy, PartialEq, Eq)]
pub enum Symbol {
    Open,
    Close,
    OpenIndex,
    CloseIndex,
    OpenBrace,
    CloseBrace,
    Semicolon,
    Comma,
    Question,
    Colon,
    Plus,
    Minus,
    Star,
    Slash,
    Percent,
    Tilde,
    Not,
    And,
    Caret,
    Or,
    Less,
    Greater,
    LessEqual,
    GreaterEqual,
    Equal,
    NotEqual,
    Shl,
    Shr,
    AndAnd,
    OrOr,
    Assign,
    AddAssign,
    SubAssign,
    MulAssign,
    DivAssign,
    RemAssign,
    ShlAssign,
    ShrAssign,
    AndAssign,
    XorAssign,
    OrAssign,
    Increment,
    Decrement,
    Static,
    Extern,
    Inline,
    Const,
    Enum,
    Void,
    If,
    Else,
    While,
    Do,
    For,
    Switch,
    Case,
    Default,
    Break,
    Continue,
    Return,
    Assert,
    Assume,
}

/// A word that types are made of: a type specifier (6.7.2), or a name of `<stdint.h>` (7.20.1.1) or `<stddef.h>` (7.19).
#[derive(Clone, Copy, Debug, PartialEq, Eq)]
pub enum TypeWord {
    Char,
    Short,
    Int,
    Long,
    Signed,
    Unsigned,
    Int8,
    Int16,
    Int32,
    Int64,
    Uint8,
    Uint16,
    Uint32,
    Uint64,
    Size,
}

/// What the grammar calls a token.
#[derive(Drop)]
pub enum Sign {
    Number(u64, Kind),
    Name(Name),
    Type(TypeWord),
    Symbol(Symbol),
    /// C that the profile leaves out.
    Foreign,
    /// No word and no punctuator of C.
    Unknown,
}

/// A terminal of the grammar: what a token is to it, and where it stands.
#[derive(Drop)]
pub struct Terminal {
    pub sign: Sign,
    pub span: Span,
}

const PUNCTUATORS: [Symbol; 43] = [
    Symbol::Open,
    Symbol::Close,
    Symbol::OpenIndex,
    Symbol::CloseIndex,
    Symbol::OpenBrace,
    Symbol::CloseBrace,
    Symbol::Semicolon,
    Symbol::Comma,
    Symbol::Question,
    Symbol::Colon,
    Symbol::Plus,
    Symbol::Minus,
    Symbol::Star,
    Symbol::Slash,
    Symbol::Percent,
    Symbol::Tilde,
    Symbol::Not,
    Symbol::And,
    Symbol::Caret,
    Symbol::Or,
    Symbol::Less,
    Symbol::Greater,
    Symbol::LessEqual,
    Symbol::GreaterEqual,
    Symbol::Equal,
    Symbol::NotEqual,
    Symbol::Shl,
    Symbol::Shr,
    Symbol::AndAnd,
    Symbol::OrOr,
    Symbol::Assign,
    Symbol::AddAssign,
    Symbol::SubAssign,
    Symbol::MulAssign,
    Symbol::DivAssign,
    Symbol::RemAssign,
    Symbol::ShlAssign,
    Symbol::ShrAssign,
    Symbol::AndAssign,
    Symbol::XorAssign,
    Symbol::OrAssign,
    Symbol::Increment,
    Symbol::Decrement,
];

const KEYWORDS: [Symbol; 19] = [
    Symbol::Static,
    Symbol::Extern,
    Symbol::Inline,
    Symbol::Const,
    Symbol::Enum,
    Symbol::Void,
    Symbol::If,
    Symbol::Else,
    Symbol::While,
    Symbol::Do,
    Symbol::For,
    Symbol::Switch,
    Symbol::Case,
    Symbol::Default,
    Symbol::Break,
    Symbol::Continue,
    Symbol::Return,
    Symbol::Assert,
    Symbol::Assume,
];

const TYPE_WORDS: [TypeWord; 15] = [
    TypeWord::Char,
    TypeWord::Short,
    TypeWord::Int,
    TypeWord::Long,
    TypeWord::Signed,
    TypeWord::Unsigned,
    TypeWord::Int8,
    TypeWord::Int16,
    TypeWord::Int32,
    TypeWord::Int64,
    TypeWord::Uint8,
    TypeWord::Uint16,
    TypeWord::Uint32,
    TypeWord::Uint64,
    TypeWord::Size,
];

fn spelling(symbol: Symbol) -> &'static [u8]
    ensures { result.now ≡ spelling symbol }
{
    match symbol {
        Symbol::Open => b"(",
        Symbol::Close => b")",
        Symbol::OpenIndex => b"[",
        Symbol::CloseIndex => b"]",
        Symbol::OpenBrace => b"{",
        Symbol::CloseBrace => b"}",
        Symbol::Semicolon => b";",
        Symbol::Comma => b",",
        Symbol::Question => b"?",
        Symbol::Colon => b":",
        Symbol::Plus => b"+",
        Symbol::Minus => b"-",
        Symbol::Star => b"*",
        Symbol::Slash => b"/",
        Symbol::Percent => b"%",
        Symbol::Tilde => b"~",
        Symbol::Not => b"!",
        Symbol::And => b"&",
        Symbol::Caret => b"^",
        Symbol::Or => b"|",
        Symbol::Less => b"<",
        Symbol::Greater => b">",
        Symbol::LessEqual => b"<=",
        Symbol::GreaterEqual => b">=",
        Symbol::Equal => b"==",
        Symbol::NotEqual => b"!=",
        Symbol::Shl => b"<<",
        Symbol::Shr => b">>",
        Symbol::AndAnd => b"&&",
        Symbol::OrOr => b"||",
        Symbol::Assign => b"=",
        Symbol::AddAssign => b"+=",
        Symbol::SubAssign => b"-=",
        Symbol::MulAssign => b"*=",
        Symbol::DivAssign => b"/=",
        Symbol::RemAssign => b"%=",
        Symbol::ShlAssign => b"<<=",
        Symbol::ShrAssign => b">>=",
        Symbol::AndAssign => b"&=",
        Symbol::XorAssign => b"^=",
        Symbol::OrAssign => b"|=",
        Symbol::Increment => b"++",
        Symbol::Decrement => b"--",
        Symbol::Static => b"static",
        Symbol::Extern => b"extern",
        Symbol::Inline => b"inline",
        Symbol::Const => b"const",
        Symbol::Enum => b"enum",
        Symbol::Void => b"void",
        Symbol::If => b"if",
        Symbol::Else => b"else",
        Symbol::While => b"while",
        Symbol::Do => b"do",
        Symbol::For => b"for",
        Symbol::Switch => b"switch",
        Symbol::Case => b"case",
        Symbol::Default => b"default",
        Symbol::Break => b"break",
        Symbol::Continue => b"continue",
        Symbol::Return => b"return",
        Symbol::Assert => b"assert",
        Symbol::Assume => b"assume",
    }
}

pub fn type_spelling(word: TypeWord) -> &'static [u8]
    ensures { result.now ≡ type_spelling word }
{
    match word {
        TypeWord::Char => b"char",
        TypeWord::Short => b"short",
        TypeWord::Int => b"int",
        TypeWord::Long => b"long",
        TypeWord::Signed => b"signed",
        TypeWord::Unsigned => b"unsigned",
        TypeWord::Int8 => b"int8_t",
        TypeWord::Int16 => b"int16_t",
        TypeWord::Int32 => b"int32_t",
        TypeWord::Int64 => b"int64_t",
        TypeWord::Uint8 => b"uint8_t",
        TypeWord::Uint16 => b"uint16_t",
        TypeWord::Uint32 => b"uint32_t",
        TypeWord::Uint64 => b"uint64_t",
        TypeWord::Size => b"size_t",
    }
}

// The first of these symbols that is spelled so.
fn symbol_spelled(symbols: &[Symbol], text: &[u8]) -> Option<Symbol>
    ensures { result ≡ find (λ m. bytes_eq (spelling m) text.now) symbols.now }
{
    for symbol in symbols {
        if spelling(*symbol) == text {
            return Some(*symbol);
        }
    }
    None
}

// The first of these words that is spelled so.
fn type_word_spelled(words: &[TypeWord], text: &[u8]) -> Option<TypeWord>
    ensures { result ≡ find (λ w. bytes_eq (type_spelling w) text.now) words.now }
{
    for word in words {
        if type_spelling(*word) == text {
            return Some(*word);
        }
    }
    None
}

// A word that the profile leaves out, or a name.
fn name_or_foreign(text: &Name) -> Result<Sign, Memory>
    ensures { IfOk result (λ sign. sign ≡ name_or_foreign text.now) }
{
    if is_foreign_word(text.bytes()) {
        return Ok(Sign::Foreign);
    }
    let name = text.clone()?;
    Ok(Sign::Name(name))
}

#[tactic(auto, unfolding(crate::specs::Signs::word_sign))]
fn word_sign(text: &Name) -> Result<Sign, Memory>
    ensures { IfOk result (λ sign. sign ≡ word_sign text.now) }
{
    if let Some(symbol) = symbol_spelled(&KEYWORDS, text.bytes()) {
        return Ok(Sign::Symbol(symbol));
    }
    if let Some(word) = type_word_spelled(&TYPE_WORDS, text.bytes()) {
        return Ok(Sign::Type(word));
    }
    name_or_foreign(text)
}

#[tactic(auto, unfolding(crate::specs::Signs::punctuator_sign))]
fn punctuator_sign(text: &[u8]) -> Sign
    ensures { result ≡ punctuator_sign text.now }
{
    if let Some(symbol) = symbol_spelled(&PUNCTUATORS, text) {
        return Sign::Symbol(symbol);
    }
    if is_foreign_mark(text) {
        Sign::Foreign
    } else {
        Sign::Unknown
    }
}

fn sign_of(kind: TokenKind, text: &Name) -> Result<Sign, Memory>
    ensures { IfOk result (λ sign. sign ≡ sign_of kind text.now) }
{
    match kind {
        TokenKind::Number { value, kind } => Ok(Sign::Number(value, kind)),
        TokenKind::Word => word_sign(text),
        TokenKind::Mark => Ok(punctuator_sign(text.bytes())),
        TokenKind::Foreign => Ok(Sign::Foreign),
    }
}

/// The tokens as the grammar sees them.
pub fn terminals(alloc: Global, tokens: &[Token]) -> Result<Vec<Terminal>, Memory>
    ensures { IfOk result (λ list. list.items ≡ map terminal_of tokens.now) }
{
    let mut list = Vec::new(alloc);
    for token in tokens {
        let sign = sign_of(token.kind, &token.text)?;
        list.push(Terminal {
            sign,
            span: token.span,
        })?;
    }
    Ok(list)
}
