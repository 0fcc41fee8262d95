// Rows of numbers: each with a space after it, and then 0.
ghost use Rattle.std.specs.Prelude.{◌≡◌, ◌∷◌, ◌++◌, ◌↔◌, false, IsTrue, MatchOption, IfOk, codes};
ghost use Rattle.certificate.specs.Numbers.{IsRow, has_byte};

use crate::numbers::integer_of;
use fq_core::Memory;

/// What stands before and after the first byte of this value.
pub(crate) fn cut(text: &[u8], mark: u8) -> Option<(&[u8], &[u8])>
    ensures { MatchOption result
        (has_byte mark text.now ≡ false)
        (λ parts. (text.now ≡ parts.0.now ++ mark ∷ parts.1.now) × (has_byte mark parts.0.now ≡ false)) }
{
    for (at, byte) in text.iter().enumerate() {
        if *byte == mark {
            return Some((&text[..at], &text[at + 1..]));
        }
    }
    None
}

/// Reads a row, and answers whether it is one. Then `numbers` has its numbers, but for the last 0.
pub(crate) fn read_row(line: &[u8], numbers: &mut Vec<i64>) -> Result<bool, Memory>
    ensures { IfOk result (λ found. IsRow line.now found numbers.new.items) }
{
    numbers.clear();
    let mut rest = line;
    while let Some((word, after)) = cut(rest, b' ') {
        match integer_of(word) {
            Some(number) => numbers.push(number)?,
            None => return Ok(false),
        }
        rest = after;
    }
    Ok(is_zero(rest))
}

fn is_zero(word: &[u8]) -> bool
    ensures { IsTrue result ↔ (word.now ≡ codes "0") }
{
    word == b"0".as_slice()
}
