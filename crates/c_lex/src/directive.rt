// Directive lines.
ghost use Rattle.std.specs.Prelude.{◌≡◌, ◌≤◌, drop, length, IfOk, OnOk};
ghost use Rattle.std.specs.List.{list_all};
ghost use Rattle.c_lex.specs.Directives.{is_ascii, is_word, all_tokens, include_of, define_of, directive_named, directive_by, directive_of, replacement_at, list_of};
ghost use Rattle.c_lex.specs.Table.{IsIndexed};
ghost use Rattle.c_lex.specs.Pieces.{AreLineTokens};
ghost use Rattle.c_lex.specs.Taking.{DirectiveTaken, is_gap};

use crate::bytes::is_letter;
use crate::constant::token_kind;
use crate::macros::Replacement;
use crate::piece::{Allowed, Piece, end_of, is_include, part, piece_at, rest_of, starts};
use crate::refuse::refusal;
use crate::table::Table;
use containers::Vector;
use fq_core::{Fault, Memory, Name, Place};
use std::alloc::{AllocError, Global};

/// What a directive line says.
#[derive(Clone, Copy, Debug)]
pub enum Directive {
    /// An `#include`, which is skipped.
    Include,
    /// An `#include` with a byte above 127.
    UnknownByte,
    /// It is outside the profile.
    Wrong,
    /// A `#define` of the word at this byte of the line, with this length.
    Define(usize, usize),
}

fn is_ascii(text: &[u8]) -> bool
    ensures { result ≡ list_all is_ascii text.now }
{
    text.iter().all(|byte| *byte <= 127)
}

fn is_word(text: &[u8]) -> bool
    ensures { result ≡ is_word text.now }
{
    match text {
        [] => false,
        [first, ..] => is_letter(*first),
    }
}

fn all_tokens(pieces: &[Piece]) -> bool
    ensures { result ≡ all_tokens pieces.now }
{
    pieces
        .iter()
        .all(|piece| matches!(piece, Piece::Token(_, _)))
}

fn include_of(header: &[u8], rest: &[Piece]) -> Directive
    ensures { result ≡ include_of header.now rest.now }
{
    match rest {
        [] => {
            if is_ascii(header) {
                Directive::Include
            } else {
                Directive::UnknownByte
            }
        }
        _ => Directive::Wrong,
    }
}

fn define_of(line: &[u8], at: usize, length: usize, list: &[Piece]) -> Directive
    ensures { result ≡ define_of line.now at length list.now }
{
    if is_word(part(line, at, length))
        && !starts(b'(', rest_of(rest_of(line, at), length))
        && all_tokens(list)
    {
        Directive::Define(at, length)
    } else {
        Directive::Wrong
    }
}

fn directive_named(line: &[u8], a: usize, n: usize, b: usize, m: usize, rest: &[Piece]) -> Directive
    ensures { result ≡ directive_named line.now a n b m rest.now }
{
    let word = part(line, a, n);
    if word == b"include".as_slice() {
        include_of(part(line, b, m), rest)
    } else if word == b"define".as_slice() {
        define_of(line, b, m, rest)
    } else {
        Directive::Wrong
    }
}

fn directive_by(line: &[u8], first: Piece, second: Piece, rest: &[Piece]) -> Directive
    ensures { result ≡ directive_by line.now first second rest.now }
{
    match first {
        Piece::Token(a, n) => match second {
            Piece::Token(b, m) => directive_named(line, a, n, b, m, rest),
            _ => Directive::Wrong,
        },
        _ => Directive::Wrong,
    }
}

/// What the tokens of a line say, after its `#`.
#[tactic(auto, unfolding(crate::specs::Directives::directive_of))]
pub fn directive_of(line: &[u8], pieces: &[Piece]) -> Directive
    ensures { result ≡ directive_of line.now pieces.now }
{
    match pieces {
        [first, second, rest @ ..] => directive_by(line, *first, *second, rest),
        _ => Directive::Wrong,
    }
}

/// The pieces of a directive line after its `#`, other than blanks and comments.
pub fn line_pieces(alloc: Global, line: &[u8]) -> Result<Vec<Piece>, AllocError>
    requires { 1 ≤ length line.now }
    ensures { IfOk result (λ pieces. AreLineTokens line.now pieces.items) }
{
    let mut pieces = Vec::new(alloc);
    let mut at = 1;
    'pieces: loop {
        let allowed = Allowed {
            directive: false,
            header: is_include(line, pieces.as_slice()),
        };
        let Some(piece) = piece_at(allowed, line, at) else {
            return Ok(pieces);
        };
        if !is_gap(piece) {
            pieces.push(piece)?;
        }
        let Some(next) = end_of(piece) else {
            return Ok(pieces);
        };
        at = next;
    }
}

fn is_gap(piece: Piece) -> bool
    ensures { result ≡ is_gap piece }
{
    matches!(piece, Piece::Gap(_, _))
}

fn replacement_at(alloc: Global, line: &[u8], piece: Piece) -> Result<Option<Replacement>, Memory>
    ensures { IfOk result (λ r. r ≡ replacement_at line.now piece) }
{
    match piece {
        Piece::Token(at, length) => {
            let bytes = part(line, at, length);
            match token_kind(bytes) {
                Some(kind) => {
                    let text = Name::new(alloc, bytes)?;
                    Ok(Some(Replacement { kind, text }))
                }
                None => Ok(None),
            }
        }
        _ => Ok(None),
    }
}

/// The tokens of a macro's list: none where a number in it is too wide for its kinds.
#[tactic(auto, unfolding(crate::specs::Directives::list_of))]
fn list_of(
    alloc: Global,
    line: &[u8],
    pieces: &[Piece],
) -> Result<Option<Vector<Replacement>>, Memory>
    ensures { IfOk result (λ list. list ≡ list_of line.now pieces.now) }
{
    let mut list = Vector::new(alloc);
    for piece in pieces {
        match replacement_at(alloc, line, *piece)? {
            Some(replacement) => list.push(replacement)?,
            None => return Ok(None),
        }
    }
    Ok(Some(list))
}

/// Reads a directive line, with its `#`, and takes in the macro that it defines.
pub fn take_directive(
    alloc: Global,
    line: &[u8],
    place: Place,
    table: &mut Table,
) -> Result<(), Fault>
    requires some { 1 ≤ length line.now }
    requires indexed { IsIndexed table.old }
    ensures taken { DirectiveTaken line.now place table.old.macros.items table.new.macros.items result }
    ensures indexed { OnOk result (IsIndexed table.new) }
{
    let tokens = line_pieces(alloc, line)?;
    match directive_of(line, tokens.as_slice()) {
        Directive::Include => Ok(()),
        Directive::UnknownByte => Err(refusal(10, place)),
        Directive::Wrong => Err(refusal(12, place)),
        Directive::Define(at, length) => {
            let name = Name::new(alloc, part(line, at, length))?;
            if table.index_of(&name).is_some() {
                return Err(refusal(12, place));
            }
            match list_of(alloc, line, after_two(tokens.as_slice()))? {
                None => Err(refusal(13, place)),
                Some(list) => {
                    table.define(name, list)?;
                    Ok(())
                }
            }
        }
    }
}

fn after_two(pieces: &[Piece]) -> &[Piece]
    ensures { result.now ≡ drop 2 pieces.now }
{
    match pieces {
        [_, _, rest @ ..] => rest,
        _ => &[],
    }
}
