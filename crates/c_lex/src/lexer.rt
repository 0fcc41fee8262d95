// The pass along a text.
ghost use Rattle.std.specs.Prelude.{◌≡◌, ◌≤◌, ◌<◌, ◌+◌, ◌^◌, [], length, IfOk, IsTrue, ◌↔◌};
ghost use Rattle.c_lex.specs.Lexed.{Answers, AreSmall};
ghost use Rattle.c_lex.specs.Places.{position_at};
ghost use Rattle.c_lex.specs.Table.{IsIndexed};
ghost use Rattle.c_lex.specs.Taking.{IsAllowed, LiesAt, PieceTaken, TextTaken, begins_line_after};

use crate::directive::take_directive;
use crate::output::Output;
use crate::piece::{Allowed, Piece, end_of, has_line_feed, part, piece_at};
use crate::position::{Position, after_bytes};
use crate::refuse::refusal;
use crate::table::Table;
use crate::take::take_token;
use crate::token::{SourceText, Token};
use fq_core::{Fault, Place, Span};
use std::alloc::Global;

/// A byte of a file, from 0, and its position.
#[derive(Clone, Copy, Debug)]
pub struct Spot {
    pub file: u32,
    pub at: usize,
    pub position: Position,
}

// Takes a piece of a text, or refuses what stops the cutting.
fn take_piece(
    alloc: Global,
    text: &[u8],
    piece: Piece,
    spot: Spot,
    table: &mut Table,
    output: &mut Output,
) -> Result<(), Fault>
    requires indexed { IsIndexed table.old }
    requires allowed { IsAllowed output.old }
    requires position { spot.position ≡ position_at text.now spot.at }
    requires inside { LiesAt spot.at (length text.now) piece }
    requires size { length text.now < 2 ^ 32 }
    requires line { spot.position.line < 2 ^ 32 }
    requires column { spot.position.column < 2 ^ 32 }
    ensures { PieceTaken spot.file text.now piece table.old table.new output.old output.new result }
{
    let line = spot.position.line as u32;
    let place = Place::Source {
        file: spot.file,
        line,
    };
    match piece {
        Piece::Gap(_, _) => Ok(()),
        Piece::Directive(at, length) => take_directive(alloc, part(text, at, length), place, table),
        Piece::Token(at, length) => {
            let span = Span {
                file: spot.file,
                line,
                column: spot.position.column as u32,
                start: at as u32,
                end: (at + length) as u32,
            };
            take_token(alloc, table, part(text, at, length), span, output)
        }
        Piece::Unknown(_) => Err(refusal(10, place)),
        Piece::Open(_) => Err(refusal(11, place)),
    }
}

// The position of a later byte.
fn later_position(text: &[u8], from: Position, at: usize, next: usize) -> Position
    requires forward { at < next }
    requires within { next ≤ length text.now }
    requires position { from ≡ position_at text.now at }
    requires size { length text.now < 2 ^ 32 }
    requires line { from.line ≤ at + 1 }
    requires column { from.column ≤ at + 1 }
    ensures position { result ≡ position_at text.now next }
    ensures line { result.line ≤ next + 1 }
    ensures column { result.column ≤ next + 1 }
{
    after_bytes(from, &text[at..next])
}

// Whether only blanks and comments stand on a line up to the end of a piece.
fn begins_line_after(text: &[u8], before: bool, piece: Piece) -> bool
    ensures { result ≡ begins_line_after text.now before piece }
{
    match piece {
        Piece::Gap(at, length) => has_line_feed(part(text, at, length)) || before,
        _ => false,
    }
}

/// Appends the tokens of a text to those of the texts before. The table takes in the macros of the text, and has none at
/// its begin.
pub fn read_text(
    alloc: Global,
    file: u32,
    text: &[u8],
    table: &mut Table,
    output: &mut Output,
) -> Result<(), Fault>
    requires size { length text.now < 2 ^ 32 }
    requires empty { table.old.macros.items ≡ [] }
    requires indexed { IsIndexed table.old }
    requires allowed { IsAllowed output.old }
    ensures { TextTaken file text.now output.old output.new result }
{
    let mut at = 0;
    let mut begins_line = true;
    let mut position = Position { line: 1, column: 1 };
    'pieces: loop {
        let allowed = Allowed {
            directive: begins_line,
            header: false,
        };
        let Some(piece) = piece_at(allowed, text, at) else {
            return Ok(());
        };
        let spot = Spot { file, at, position };
        take_piece(alloc, text, piece, spot, table, output)?;
        let Some(next) = end_of(piece) else {
            return Ok(());
        };
        position = later_position(text, position, at, next);
        begins_line = begins_line_after(text, begins_line, piece);
        at = next;
    }
}

/// Whether each text has fewer than 2^32 bytes, as `tokens` requires.
pub fn are_small(texts: &[SourceText]) -> bool
    ensures { IsTrue result ↔ AreSmall texts.now }
{
    texts.iter().all(|text| text.bytes.len() < 1 << 32)
}

/// The tokens of texts, with macros replaced (ISO/IEC 9899:2011, 6.4 and 6.10.3).
///
/// A text may have `#include` of names in angle brackets, which are skipped, and `#define` of names without parameters,
/// which are unknown in the next text. A place in the texts is refused with code 10 where no token begins, 11 where a
/// `/*` has no `*/`, 12 for a directive outside the profile or a second definition, 13 for a number that is too wide
/// for its kinds, 14 for a macro in whose replacement a word is met within its own replacement, and 15 past 200,000
/// tokens or 200,000 replaced words over all texts. The first such place is named, and of several causes at one token
/// the lowest code.
pub fn tokens(alloc: Global, texts: &[SourceText]) -> Result<Vec<Token>, Fault>
    requires files { length texts.now < 2 ^ 32 }
    requires sizes { AreSmall texts.now }
    ensures { Answers texts.now result }
{
    let mut output = Output {
        tokens: Vec::new(alloc),
        replaced: 0,
    };
    for (file, text) in texts.iter().enumerate() {
        let mut table = Table::new(alloc);
        read_text(
            alloc,
            file as u32,
            text.bytes.as_slice(),
            &mut table,
            &mut output,
        )?;
    }
    Ok(output.tokens)
}
