// The first of the tokens that are left.
ghost use Rattle.std.specs.Prelude.{◌≡◌, ◌==◌, ◌≤◌, length, position, Some, None};
ghost use Rattle.std.specs.Str.{bytes_eq};
ghost use Rattle.fql_read.specs.Gives.{Gives};
ghost use Rattle.fql_read.specs.Forms.{place_in};
ghost use Rattle.fql_read.specs.Tables.{name_in, file_in, number_in, place_of_predicate};
ghost use Rattle.fql_read.specs.Reading.{code_of, starts, tail, expect, column_of, keyword_at, one_at, bracketed_at, operator_at};

use crate::operator::{Operator, operator_of};
use crate::stop::Stop;
use fq_core::Name;
use fql_tokens::{Keyword, Mark, Sign, Token};
use std::alloc::Global;

fn code(mark: Mark) -> u8
    ensures { result ≡ code_of mark }
{
    mark as u8
}

fn is_same(a: Mark, b: Mark) -> bool
    ensures { result ≡ code_of a == code_of b }
{
    code(a) == code(b)
}

pub fn starts_with(tokens: &[Token], mark: Mark) -> bool
    ensures { result ≡ starts mark tokens.now }
{
    match tokens {
        [] => false,
        [first, ..] => match &first.sign {
            Sign::Mark(other) => is_same(*other, mark),
            _ => false,
        },
    }
}

// The tokens behind the first.
pub fn others(tokens: &[Token]) -> &[Token]
    ensures { result.now ≡ tail tokens.now }
{
    match tokens {
        [] => tokens,
        [_, rest @ ..] => rest,
    }
}

pub fn expect_mark(tokens: &[Token], mark: Mark) -> Result<&[Token], Stop>
    ensures { Gives (λ x. x.now) result (expect mark tokens.now) }
{
    if starts_with(tokens, mark) {
        Ok(others(tokens))
    } else {
        Err(Stop::Syntax)
    }
}

// The column of the first token.
pub fn first_column(tokens: &[Token]) -> u32
    ensures { result ≡ column_of tokens.now }
{
    match tokens {
        [] => 0,
        [first, ..] => first.column,
    }
}

pub fn first_keyword(tokens: &[Token]) -> Option<Keyword>
    ensures { result ≡ keyword_at tokens.now }
{
    match tokens {
        [] => None,
        [first, ..] => match &first.sign {
            Sign::Word(keyword, _) => *keyword,
            _ => None,
        },
    }
}

pub fn first_operator(tokens: &[Token]) -> Option<Operator>
    ensures { result ≡ operator_at tokens.now }
{
    match tokens {
        [] => None,
        [first, ..] => operator_of(&first.sign),
    }
}

fn first_name(alloc: Global, tokens: &[Token]) -> Result<(Name, &[Token]), Stop>
    ensures { Gives (λ x. (x.0, x.1.now)) result (one_at name_in tokens.now) }
{
    let [first, rest @ ..] = tokens else {
        return Err(Stop::Syntax);
    };
    match &first.sign {
        Sign::Word(_, name) => Ok((Name::new(alloc, name.bytes())?, rest)),
        _ => Err(Stop::Syntax),
    }
}

fn first_file(alloc: Global, tokens: &[Token]) -> Result<(Name, &[Token]), Stop>
    ensures { Gives (λ x. (x.0, x.1.now)) result (one_at file_in tokens.now) }
{
    let [first, rest @ ..] = tokens else {
        return Err(Stop::Syntax);
    };
    match &first.sign {
        Sign::File(name) => Ok((Name::new(alloc, name.bytes())?, rest)),
        _ => Err(Stop::Syntax),
    }
}

pub fn first_number(tokens: &[Token]) -> Result<(u32, &[Token]), Stop>
    ensures { Gives (λ x. (x.0, x.1.now)) result (one_at number_in tokens.now) }
{
    let [first, rest @ ..] = tokens else {
        return Err(Stop::Syntax);
    };
    match &first.sign {
        Sign::Number(number) => Ok((*number, rest)),
        _ => Err(Stop::Syntax),
    }
}

// The place of a text among the predicates.
pub fn place_of(predicates: &[Name], text: &[u8]) -> Option<usize>
    ensures { result ≡ place_in predicates.now text.now }
{
    predicates
        .iter()
        .position(|predicate| predicate.bytes() == text)
}

pub fn first_predicate<'a>(
    predicates: &[Name],
    tokens: &'a [Token],
) -> Result<(u32, &'a [Token]), Stop>
    requires { length predicates.now ≤ 5000 }
    ensures { Gives (λ x. (x.0, x.1.now)) result (one_at (place_of_predicate predicates.now) tokens.now) }
{
    let [first, rest @ ..] = tokens else {
        return Err(Stop::Syntax);
    };
    match &first.sign {
        Sign::Predicate(text) => match place_of(predicates, text.bytes()) {
            Some(place) => Ok((place as u32, rest)),
            None => Err(Stop::Syntax),
        },
        _ => Err(Stop::Syntax),
    }
}

#[tactic(auto, unfolding(crate::specs::Reading::bracketed_at))]
pub fn bracketed_name(alloc: Global, tokens: &[Token]) -> Result<(Name, &[Token]), Stop>
    ensures { Gives (λ x. (x.0, x.1.now)) result (bracketed_at name_in tokens.now) }
{
    let rest = expect_mark(tokens, Mark::Open)?;
    let (name, rest) = first_name(alloc, rest)?;
    let rest = expect_mark(rest, Mark::Close)?;
    Ok((name, rest))
}

#[tactic(auto, unfolding(crate::specs::Reading::bracketed_at))]
pub fn bracketed_file(alloc: Global, tokens: &[Token]) -> Result<(Name, &[Token]), Stop>
    ensures { Gives (λ x. (x.0, x.1.now)) result (bracketed_at file_in tokens.now) }
{
    let rest = expect_mark(tokens, Mark::Open)?;
    let (name, rest) = first_file(alloc, rest)?;
    let rest = expect_mark(rest, Mark::Close)?;
    Ok((name, rest))
}

#[tactic(auto, unfolding(crate::specs::Reading::bracketed_at))]
pub fn bracketed_number(tokens: &[Token]) -> Result<(u32, &[Token]), Stop>
    ensures { Gives (λ x. (x.0, x.1.now)) result (bracketed_at number_in tokens.now) }
{
    let rest = expect_mark(tokens, Mark::Open)?;
    let (number, rest) = first_number(rest)?;
    let rest = expect_mark(rest, Mark::Close)?;
    Ok((number, rest))
}
