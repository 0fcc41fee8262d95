// The pass along a query.
ghost use Rattle.std.specs.Prelude.{◌≡◌, ◌≤◌, length};
ghost use Rattle.fql_tokens.specs.Cuts.{after};
ghost use Rattle.fq_core.specs.Refusals.{IsUnlessMemory};
ghost use Rattle.fql_tokens.specs.Outcome.{cutting, by_cutting};

use crate::first::{Beginning, Mode, rest_of, what_begins};
use crate::refuse::refusal;
use crate::token::{FilterName, Mark, Sign, Token};
use containers::Vector;
use fq_core::{Fault, Place};
use std::alloc::Global;

// What a token says of the place behind it.
fn after(mode: Mode, sign: &Sign) -> Mode
    ensures { result ≡ after mode sign.now }
{
    match sign {
        Sign::Filter(FilterName::File) => Mode::FileFilter,
        Sign::Mark(Mark::Open) => match mode {
            Mode::FileFilter => Mode::FileName,
            _ => Mode::Plain,
        },
        _ => Mode::Plain,
    }
}

/// The tokens of a query, or the refusal of the first place at which none begins.
pub fn cut(alloc: Global, text: &[u8]) -> Result<Vector<Token>, Fault>
    requires { length text.now ≤ 5000 }
    ensures { IsUnlessMemory result (by_cutting (cutting text.now)) }
{
    let mut made = Vector::new(alloc);
    let mut rest = text;
    let mut column: u32 = 1;
    let mut mode = Mode::Plain;
    for _ in 0..text.len() {
        match what_begins(alloc, mode, rest)? {
            Beginning::End => break,
            Beginning::Blank => {
                rest = rest_of(rest, 1);
                column += 1;
            }
            Beginning::Token(sign, length) => {
                mode = after(mode, &sign);
                made.push(Token { sign, column })?;
                rest = rest_of(rest, length);
                column += length as u32;
            }
            Beginning::Unknown => return Err(refusal(60, Place::Query { column })),
        }
    }
    Ok(made)
}
