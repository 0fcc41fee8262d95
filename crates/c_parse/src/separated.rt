// Forms with commas between them, and a symbol behind the last.
ghost use Rattle.std.specs.Prelude.{◌≡◌, ◌<◌, ◌&&◌, List, length, IfOk};
ghost use Rattle.c_parse.specs.declared.sign.Terminal.{Terminal};
ghost use Rattle.c_parse.specs.Gives.{Gives};
ghost use Rattle.c_parse.specs.Reading.{Read, starts};
ghost use Rattle.c_parse.specs.ReadingStatements.{separated_at};

use crate::cursor::{expect_symbol, starts_with, tail};
use crate::sign::{Symbol, Terminal};
use crate::stop::Stop;
use containers::Vector;
use std::alloc::Global;

/// A form of which several stand with commas between them.
pub trait Part: Drop {
    ghost reads: { List Terminal → Read Self };

    fn read(alloc: Global, tokens: &[Terminal]) -> Result<(Self, &[Terminal]), Stop>
        ensures same { Gives (λ x. (x.0, x.1.now)) result (reads tokens.now) }
        ensures fewer { IfOk result (λ x. length x.1.now < length tokens.now) };
}

// Whether the comma before these tokens is the last one.
fn ends_by_comma(comma: bool, last: Symbol, tokens: &[Terminal]) -> bool
    ensures { result ≡ (comma && starts last tokens.now) }
{
    comma && starts_with(tokens, last)
}

// One form or more, and the symbol behind the last, before which a comma may stand where it is allowed.
pub fn separated<T: Part>(
    alloc: Global,
    comma: bool,
    last: Symbol,
    tokens: &[Terminal],
) -> Result<(Vector<T>, &[Terminal]), Stop>
    ensures { Gives (λ x. (x.0, x.1.now)) result (separated_at T.reads comma last (length tokens.now) tokens.now) }
{
    let mut list = Vector::new(alloc);
    let mut rest = tokens;
    'forms: loop {
        let (next, after) = T::read(alloc, rest)?;
        list.push(next)?;
        if !starts_with(after, Symbol::Comma) {
            let after = expect_symbol(after, last)?;
            return Ok((list, after));
        }
        rest = tail(after);
        if ends_by_comma(comma, last, rest) {
            return Ok((list, tail(rest)));
        }
    }
}
