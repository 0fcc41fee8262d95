// What is refused before the grammar is looked at.
ghost use Rattle.std.specs.Prelude.{◌≡◌, ◌<◌, ◌^◌, option_map};
ghost use Rattle.c_parse.specs.Limits.{is_foreign, first_foreign, is_opening, is_closing, is_ending, has_symbol, with_bracket, in_row, passed_by, first_passed};

use crate::sign::{Sign, Symbol, Terminal};
use fq_core::Span;

fn is_foreign(sign: &Sign) -> bool
    ensures { result ≡ is_foreign sign.now }
{
    match sign {
        Sign::Foreign => true,
        _ => false,
    }
}

/// The span of the first token that the profile leaves out.
pub fn first_foreign(tokens: &[Terminal]) -> Option<Span>
    ensures { result ≡ option_map (λ t. t.span) (first_foreign tokens.now) }
{
    for token in tokens {
        if is_foreign(&token.sign) {
            return Some(token.span);
        }
    }
    None
}

fn is_opening(sign: &Sign) -> bool
    ensures { result ≡ has_symbol is_opening sign.now }
{
    match sign {
        Sign::Symbol(symbol) => match symbol {
            Symbol::Open | Symbol::OpenIndex | Symbol::OpenBrace => true,
            _ => false,
        },
        _ => false,
    }
}

fn is_closing(sign: &Sign) -> bool
    ensures { result ≡ has_symbol is_closing sign.now }
{
    match sign {
        Sign::Symbol(symbol) => match symbol {
            Symbol::Close | Symbol::CloseIndex | Symbol::CloseBrace => true,
            _ => false,
        },
        _ => false,
    }
}

fn is_ending(sign: &Sign) -> bool
    ensures { result ≡ has_symbol is_ending sign.now }
{
    match sign {
        Sign::Symbol(symbol) => match symbol {
            Symbol::Semicolon | Symbol::Comma | Symbol::OpenBrace | Symbol::CloseBrace => true,
            _ => false,
        },
        _ => false,
    }
}

fn with_bracket(brackets: usize, token: &Terminal) -> usize
    requires { brackets < 2 ^ 60 }
    ensures { result ≡ with_bracket brackets token.now }
{
    if is_opening(&token.sign) {
        brackets + 1
    } else if is_closing(&token.sign) {
        brackets.saturating_sub(1)
    } else {
        brackets
    }
}

fn in_row(row: usize, token: &Terminal) -> usize
    requires { row < 2 ^ 60 }
    ensures { result ≡ in_row row token.now }
{
    if is_ending(&token.sign) { 0 } else { row + 1 }
}

fn passed_by(brackets: usize, row: usize) -> Option<u64>
    ensures { result ≡ passed_by brackets row }
{
    if brackets > 60 {
        Some(60)
    } else if row > 256 {
        Some(256)
    } else {
        None
    }
}

/// The limit of open brackets, or of tokens in a row, that is passed first.
pub fn first_passed(tokens: &[Terminal]) -> Option<u64>
    ensures { result ≡ first_passed tokens.now }
{
    let mut brackets = 0;
    let mut row = 0;
    for token in tokens {
        brackets = with_bracket(brackets, token);
        row = in_row(row, token);
        if let Some(limit) = passed_by(brackets, row) {
            return Some(limit);
        }
    }
    None
}
