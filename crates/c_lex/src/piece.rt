// The pieces of a text.
ghost use Rattle.std.specs.Prelude.{◌≡◌, ◌+◌, ◌<◌, ◌≤◌, ◌^◌, drop, length, IfSome};
ghost use Rattle.std.specs.List.{prefix_len};
ghost use Rattle.c_lex.specs.Bytes.{is_in_line};
ghost use Rattle.c_lex.specs.Forms.{longest};
ghost use Rattle.c_lex.specs.Pieces.{block_comment, closes, closing, end_of, first_piece, has_line_feed, is_include, part, starts, token_or_unknown};
ghost use Rattle.c_lex.specs.Taking.{LiesAt};

use crate::bytes::is_blank;
use crate::form::longest;

/// What may begin at a place.
#[derive(Clone, Copy, Debug)]
pub struct Allowed {
    /// A directive line.
    pub directive: bool,
    /// The name of a header, in place of other tokens.
    pub header: bool,
}

/// A piece of a text by the byte at which it begins, from 0, and its length in bytes, or what stops the cutting.
#[derive(Clone, Copy)]
pub enum Piece {
    /// A blank or a comment.
    Gap(usize, usize),
    /// A directive line, without its line feed.
    Directive(usize, usize),
    /// A token.
    Token(usize, usize),
    /// No piece begins here.
    Unknown(usize),
    /// A comment that has no end.
    Open(usize),
}

// How many bytes stand up to the line's end.
fn line_length(text: &[u8]) -> usize
    ensures { result ≡ prefix_len is_in_line text.now }
{
    text.iter().take_while(|byte| **byte != b'\n').count()
}

fn closes(text: &[u8]) -> bool
    ensures { result ≡ closes text.now }
{
    match text {
        [] => false,
        [first, rest @ ..] => *first == b'*' && starts(b'/', rest),
    }
}

// How many bytes stand up to the first `*/`, and with it.
fn closing(text: &[u8]) -> Option<usize>
    ensures { result ≡ closing text.now }
{
    for i in 0..text.len() {
        if closes(&text[i..]) {
            return Some(i + 2);
        }
    }
    None
}

// The comment at a place, whose bytes after `/*` are given.
#[tactic(auto, using(crate::proofs::Loops::closing_within))]
fn comment(at: usize, after: &[u8]) -> Piece
    requires { length after.now + 2 < 2 ^ 64 }
    ensures { result ≡ block_comment at (closing after.now) }
{
    match closing(after) {
        Some(length) => Piece::Gap(at, 2 + length),
        None => Piece::Open(at),
    }
}

fn token(allowed: Allowed, at: usize, text: &[u8]) -> Piece
    ensures { result ≡ token_or_unknown at (longest allowed.header text.now) }
{
    match longest(allowed.header, text) {
        Some(length) => Piece::Token(at, length),
        None => Piece::Unknown(at),
    }
}

/// Whether the first byte is this one.
pub fn starts(byte: u8, text: &[u8]) -> bool
    ensures { result ≡ starts byte text.now }
{
    match text {
        [] => false,
        [first, ..] => *first == byte,
    }
}

#[tactic(auto, unfolding(crate::specs::Pieces::first_piece))]
fn first_piece(allowed: Allowed, at: usize, text: &[u8]) -> Option<Piece>
    ensures { result ≡ first_piece allowed at text.now }
{
    match text {
        [] => None,
        [first, rest @ ..] => {
            if is_blank(*first) {
                Some(Piece::Gap(at, 1))
            } else if *first == b'/' && starts(b'/', rest) {
                Some(Piece::Gap(at, line_length(text)))
            } else if *first == b'/' && starts(b'*', rest) {
                Some(comment(at, &rest[1..]))
            } else if *first == b'#' && allowed.directive {
                Some(Piece::Directive(at, line_length(text)))
            } else {
                Some(token(allowed, at, text))
            }
        }
    }
}

/// The piece that begins at a place of a text, if there is one.
pub fn piece_at(allowed: Allowed, text: &[u8], at: usize) -> Option<Piece>
    requires { at ≤ length text.now }
    ensures value { result ≡ first_piece allowed at (drop at text.now) }
    ensures inside { IfSome result (LiesAt at (length text.now)) }
{
    first_piece(allowed, at, rest_of(text, at))
}

/// Where a piece ends: nowhere where it stops the cutting.
pub fn end_of(piece: Piece) -> Option<usize>
    requires { IfSome (end_of piece) (λ end. end < 2 ^ 64) }
    ensures { result ≡ end_of piece }
{
    match piece {
        Piece::Gap(at, length) | Piece::Directive(at, length) | Piece::Token(at, length) => {
            Some(at + length)
        }
        Piece::Unknown(_) | Piece::Open(_) => None,
    }
}

/// `length` bytes of a text from a place on, as far as there are so many.
pub fn part(text: &[u8], at: usize, length: usize) -> &[u8]
    ensures { result.now ≡ part text.now at length }
{
    let rest = rest_of(text, at);
    if length < rest.len() {
        &rest[..length]
    } else {
        rest
    }
}

/// The bytes of a text from a place on.
pub fn rest_of(text: &[u8], at: usize) -> &[u8]
    ensures { result.now ≡ drop at text.now }
{
    if at < text.len() { &text[at..] } else { &[] }
}

/// Whether there is a line feed among these bytes.
pub fn has_line_feed(bytes: &[u8]) -> bool
    ensures { result ≡ has_line_feed bytes.now }
{
    bytes.iter().any(|byte| *byte == b'\n')
}

/// Whether the pieces are the word `include` alone.
#[tactic(auto, unfolding(crate::specs::Pieces::is_include))]
pub fn is_include(line: &[u8], pieces: &[Piece]) -> bool
    ensures { result ≡ is_include line.now pieces.now }
{
    match pieces {
        [Piece::Token(at, length)] => part(line, *at, *length) == b"include".as_slice(),
        _ => false,
    }
}
