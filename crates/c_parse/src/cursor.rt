// The first of the tokens that are left.
ghost use Rattle.std.specs.Prelude.{◌≡◌, ◌==◌};
ghost use Rattle.c_parse.specs.Gives.{Gives};
ghost use Rattle.c_parse.specs.Grammar.{first_span};
ghost use Rattle.c_parse.specs.Trees.{level};
ghost use Rattle.c_parse.specs.Reading.{code_of, starts, starts_type, word_at, expect, tail, type_at, infix_of, infix_at, prefix_of};

use crate::operator::{Infix, Prefix};
use crate::sign::{Sign, Symbol, Terminal, TypeWord};
use crate::stop::Stop;
use crate::types::kind_of;
use c_values::{BinaryOp, Kind, UnaryOp};
use fq_core::Span;
use std::alloc::Global;

fn code(symbol: Symbol) -> u8
    ensures { result ≡ code_of symbol }
{
    symbol as u8
}

pub fn is_same(a: Symbol, b: Symbol) -> bool
    ensures { result ≡ code_of a == code_of b }
{
    code(a) == code(b)
}

pub fn starts_with(tokens: &[Terminal], symbol: Symbol) -> bool
    ensures { result ≡ starts symbol tokens.now }
{
    match tokens {
        [] => false,
        [first, ..] => match &first.sign {
            Sign::Symbol(other) => is_same(*other, symbol),
            _ => false,
        },
    }
}

// The tokens behind the first.
pub fn tail(tokens: &[Terminal]) -> &[Terminal]
    ensures { result.now ≡ tail tokens.now }
{
    match tokens {
        [] => tokens,
        [_, rest @ ..] => rest,
    }
}

pub fn expect_symbol(tokens: &[Terminal], symbol: Symbol) -> Result<&[Terminal], Stop>
    ensures { Gives (λ x. x.now) result (expect symbol tokens.now) }
{
    if starts_with(tokens, symbol) {
        Ok(tail(tokens))
    } else {
        Err(Stop::Syntax)
    }
}

// Where the first token stands.
pub fn first_span(tokens: &[Terminal]) -> Span
    ensures { result ≡ first_span tokens.now }
{
    match tokens {
        [] => Span {
            file: 0,
            line: 0,
            column: 0,
            start: 0,
            end: 0,
        },
        [first, ..] => first.span,
    }
}

pub fn starts_with_type(tokens: &[Terminal]) -> bool
    ensures { result ≡ starts_type tokens.now }
{
    match tokens {
        [] => false,
        [first, ..] => match &first.sign {
            Sign::Type(_) => true,
            _ => false,
        },
    }
}

fn first_word(tokens: &[Terminal]) -> Option<TypeWord>
    ensures { result ≡ word_at tokens.now }
{
    match tokens {
        [] => None,
        [first, ..] => match &first.sign {
            Sign::Type(word) => Some(*word),
            _ => None,
        },
    }
}

#[tactic(auto, unfolding(crate::specs::Reading::type_at))]
pub fn take_type(alloc: Global, tokens: &[Terminal]) -> Result<(Kind, &[Terminal]), Stop>
    ensures { Gives (λ x. (x.0, x.1.now)) result (type_at tokens.now) }
{
    let mut words = Vec::new(alloc);
    let mut rest = tokens;
    while let Some(word) = first_word(rest) {
        words.push(word)?;
        rest = tail(rest);
    }
    match kind_of(&words) {
        Some(kind) => Ok((kind, rest)),
        None => Err(Stop::Syntax),
    }
}

fn infix_of_symbol(symbol: Symbol) -> Option<Infix>
    ensures { result ≡ infix_of symbol }
{
    match symbol {
        Symbol::Plus => Some(Infix::Binary(BinaryOp::Add)),
        Symbol::Minus => Some(Infix::Binary(BinaryOp::Sub)),
        Symbol::Star => Some(Infix::Binary(BinaryOp::Mul)),
        Symbol::Slash => Some(Infix::Binary(BinaryOp::Div)),
        Symbol::Percent => Some(Infix::Binary(BinaryOp::Rem)),
        Symbol::Shl => Some(Infix::Binary(BinaryOp::Shl)),
        Symbol::Shr => Some(Infix::Binary(BinaryOp::Shr)),
        Symbol::And => Some(Infix::Binary(BinaryOp::And)),
        Symbol::Or => Some(Infix::Binary(BinaryOp::Or)),
        Symbol::Caret => Some(Infix::Binary(BinaryOp::Xor)),
        Symbol::Less => Some(Infix::Binary(BinaryOp::Less)),
        Symbol::LessEqual => Some(Infix::Binary(BinaryOp::LessEqual)),
        Symbol::Greater => Some(Infix::Binary(BinaryOp::Greater)),
        Symbol::GreaterEqual => Some(Infix::Binary(BinaryOp::GreaterEqual)),
        Symbol::Equal => Some(Infix::Binary(BinaryOp::Equal)),
        Symbol::NotEqual => Some(Infix::Binary(BinaryOp::NotEqual)),
        Symbol::AndAnd => Some(Infix::Both),
        Symbol::OrOr => Some(Infix::Either),
        _ => None,
    }
}

pub fn first_infix(tokens: &[Terminal]) -> Option<Infix>
    ensures { result ≡ infix_at tokens.now }
{
    match tokens {
        [] => None,
        [first, ..] => match &first.sign {
            Sign::Symbol(symbol) => infix_of_symbol(*symbol),
            _ => None,
        },
    }
}

pub fn prefix_of(symbol: Symbol) -> Option<Prefix>
    ensures { result ≡ prefix_of symbol }
{
    match symbol {
        Symbol::Plus => Some(Prefix::Plus),
        Symbol::Minus => Some(Prefix::Unary(UnaryOp::Neg)),
        Symbol::Tilde => Some(Prefix::Unary(UnaryOp::Complement)),
        Symbol::Not => Some(Prefix::Unary(UnaryOp::Not)),
        _ => None,
    }
}

// How tightly an operator binds, from 1 to 10.
pub fn level_of(op: Infix) -> u8
    ensures { result ≡ level op }
{
    match op {
        Infix::Either => 1,
        Infix::Both => 2,
        Infix::Binary(op) => match op {
            BinaryOp::Or => 3,
            BinaryOp::Xor => 4,
            BinaryOp::And => 5,
            BinaryOp::Equal | BinaryOp::NotEqual => 6,
            BinaryOp::Less | BinaryOp::LessEqual | BinaryOp::Greater | BinaryOp::GreaterEqual => 7,
            BinaryOp::Shl | BinaryOp::Shr => 8,
            BinaryOp::Add | BinaryOp::Sub => 9,
            BinaryOp::Mul | BinaryOp::Div | BinaryOp::Rem => 10,
        },
    }
}
