// The replacement of a macro's word.
ghost use Rattle.std.specs.Prelude.{◌≡◌, ◌≤◌, ◌<◌, ◌+◌, ◌^◌, ◌∷◌, [], length, IfOk, IfSome, Some, drop, slice_get};
ghost use Rattle.std.specs.Option.{option_copied};
ghost use Rattle.c_lex.specs.Macros.{list_at, index_of};
ghost use Rattle.c_lex.specs.Table.{IsIndexed};
ghost use Rattle.c_lex.specs.Expanding.{Turned, ExpandsTo};
ghost use Rattle.c_lex.specs.Taking.{IsAllowed};

use crate::macros::{Macro, Replacement};
use crate::output::{MOST, Output};
use crate::table::Table;
use crate::token::Token;
use fq_core::Span;
use std::alloc::{AllocError, Global};

/// A token of a macro's list: the macro's index in the table, and the token's index in the list.
#[derive(Clone, Copy, Debug)]
pub struct Frame {
    pub index: usize,
    pub at: usize,
}

/// What comes of one turn.
#[derive(Clone, Copy, Debug)]
pub enum Turn {
    GoesOn,
    Ends,
    /// A limit forbids what comes next.
    Passes,
}

/// What comes of a word.
#[derive(Clone, Copy, Debug)]
pub enum Expansion {
    /// The tokens were made.
    Done,
    /// A limit forbids them, or they loop.
    Passed,
}

/// The token of a frame.
pub fn frame_token(macros: &[Macro], frame: Frame) -> Option<&Replacement>
    ensures value { option_copied result ≡ slice_get (list_at macros.now frame.index) frame.at }
    ensures fits { IfSome result (λ r. frame.at + 1 < 2 ^ 64) }
{
    if frame.index >= macros.len() {
        return None;
    }
    let list = macros[frame.index].list.as_slice();
    if frame.at >= list.len() {
        return None;
    }
    Some(&list[frame.at])
}

fn take_turn(
    table: &Table,
    span: Span,
    frames: &mut Vec<Frame>,
    output: &mut Output,
) -> Result<Turn, AllocError>
    requires { IsIndexed table.now }
    ensures { Turned table.now.macros.items span frames.old.items output.old.tokens.items output.old.replaced frames.new.items output.new.tokens.items output.new.replaced result }
{
    let Some(frame) = frames.pop() else {
        return Ok(Turn::Ends);
    };
    let Some(next) = frame_token(table.macros.as_slice(), frame) else {
        return Ok(Turn::GoesOn);
    };
    frames.push(Frame {
        index: frame.index,
        at: frame.at + 1,
    })?;
    match table.index_of(&next.text) {
        None => {
            if output.tokens.len() >= MOST {
                return Ok(Turn::Passes);
            }
            output.tokens.push(Token {
                kind: next.kind,
                span,
                text: next.text.clone()?,
            })?;
        }
        Some(index) => {
            if output.replaced >= MOST {
                return Ok(Turn::Passes);
            }
            output.replaced += 1;
            frames.push(Frame { index, at: 0 })?;
        }
    }
    Ok(Turn::GoesOn)
}

/// Makes the tokens that the word of the macro at `index` gives, or stops where a limit is passed.
pub fn expand(
    alloc: Global,
    table: &Table,
    word: &Replacement,
    index: usize,
    span: Span,
    output: &mut Output,
) -> Result<Expansion, AllocError>
    requires indexed { IsIndexed table.now }
    requires index { index_of table.now.macros.items word.now.text ≡ Some index }
    requires allowed { IsAllowed output.old }
    ensures { IfOk result (λ r. ExpandsTo table.now.macros.items (word.now ∷ []) span output.old.tokens.items output.new.tokens.items output.old.replaced output.new.replaced r) }
{
    if output.replaced >= MOST {
        return Ok(Expansion::Passed);
    }
    output.replaced += 1;
    let mut frames = Vec::new(alloc);
    frames.push(Frame { index, at: 0 })?;
    'turns: loop {
        match take_turn(table, span, &mut frames, output)? {
            Turn::GoesOn => {}
            Turn::Ends => return Ok(Expansion::Done),
            Turn::Passes => return Ok(Expansion::Passed),
        }
    }
}
