// What one token comes to.
ghost use Rattle.std.specs.Prelude.{◌≡◌, ◌≤◌, Some, length};
ghost use Rattle.c_lex.specs.Constants.{token_kind};
ghost use Rattle.c_lex.specs.Lexed.{line_of_span};
ghost use Rattle.c_lex.specs.Macros.{index_of};
ghost use Rattle.c_lex.specs.Table.{IsIndexed};
ghost use Rattle.c_lex.specs.Taking.{IsAllowed, PlainTaken, TokenTaken};

use crate::constant::token_kind;
use crate::expand::{Expansion, expand};
use crate::looping::loops;
use crate::macros::Replacement;
use crate::output::{MOST, Output, past_limit};
use crate::refuse::refusal;
use crate::table::Table;
use crate::token::Token;
use fq_core::{Fault, Name, Place, Span};
use std::alloc::Global;

fn line_of_span(span: Span) -> Place
    ensures { result ≡ line_of_span span }
{
    Place::Source {
        file: span.file,
        line: span.line,
    }
}

// Takes a token that no macro replaces.
fn take_plain(word: Replacement, span: Span, output: &mut Output) -> Result<(), Fault>
    requires { IsAllowed output.old }
    ensures { PlainTaken word span output.old output.new result }
{
    if output.tokens.len() >= MOST {
        return Err(past_limit());
    }
    output.tokens.push(Token {
        kind: word.kind,
        span,
        text: word.text,
    })?;
    Ok(())
}

// Takes the word of the macro at an index.
fn take_use(
    alloc: Global,
    table: &Table,
    word: &Replacement,
    index: usize,
    span: Span,
    output: &mut Output,
) -> Result<(), Fault>
    requires indexed { IsIndexed table.now }
    requires index { index_of table.now.macros.items word.now.text ≡ Some index }
    requires kind { token_kind word.now.text ≡ Some word.now.kind }
    requires allowed { IsAllowed output.old }
    ensures { TokenTaken table.now.macros.items word.now.text span output.old output.new result }
{
    match expand(alloc, table, word, index, span, output)? {
        Expansion::Done => Ok(()),
        Expansion::Passed => {
            if loops(alloc, table, index)? {
                Err(refusal(14, line_of_span(span)))
            } else {
                Err(past_limit())
            }
        }
    }
}

/// Takes a token with these bytes at this span.
pub fn take_token(
    alloc: Global,
    table: &Table,
    bytes: &[u8],
    span: Span,
    output: &mut Output,
) -> Result<(), Fault>
    requires indexed { IsIndexed table.now }
    requires allowed { IsAllowed output.old }
    ensures { TokenTaken table.now.macros.items bytes.now span output.old output.new result }
{
    let Some(kind) = token_kind(bytes) else {
        return Err(refusal(13, line_of_span(span)));
    };
    let word = Replacement {
        kind,
        text: Name::new(alloc, bytes)?,
    };
    match table.index_of(&word.text) {
        None => take_plain(word, span, output),
        Some(index) => take_use(alloc, table, &word, index, span, output),
    }
}
