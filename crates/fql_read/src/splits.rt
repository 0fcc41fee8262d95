// Reading what `NODES` and `EDGES` are of: filters, and `PRED` of them.
ghost use Rattle.std.specs.Prelude.{◌≡◌, ◌≤◌, ◌==◌, length, IfOk};
ghost use Rattle.std.specs.List.{list_any};
ghost use Rattle.fql_read.specs.Gives.{Gives};
ghost use Rattle.fql_read.specs.Forms.{with_place};
ghost use Rattle.fql_read.specs.Tables.{is_pred};
ghost use Rattle.fql_read.specs.Reading.{single_at, pred_at, split_at, split_in};

use crate::cover::Split;
use crate::cursor::{expect_mark, first_keyword, first_predicate, others};
use crate::filter::Filter;
use crate::filters::first_filter;
use crate::stop::Stop;
use containers::{Boxed, Vector};
use fq_core::{Memory, Name};
use fql_tokens::{Keyword, Mark, Token};
use std::alloc::Global;

/// Whether a word is `PRED`.
pub fn is_pred(keyword: Option<Keyword>) -> bool
    ensures { result ≡ is_pred keyword }
{
    match keyword {
        Some(Keyword::Pred) => true,
        _ => false,
    }
}

fn has_place(places: &[u32], place: u32) -> bool
    ensures { result ≡ list_any (λ k. k == place) places.now }
{
    places.iter().any(|other| *other == place)
}

// These places, and behind them this one, unless it is among them.
fn with_place(mut places: Vector<u32>, place: u32) -> Result<Vector<u32>, Memory>
    ensures { IfOk result (λ all. all ≡ with_place places place) }
{
    if !has_place(&places, place) {
        places.push(place)?;
    }
    Ok(places)
}

// What follows `PRED`.
#[cycle(split)]
#[tactic(auto, unfolding(crate::specs::Reading::pred_at))]
fn behind_pred<'a>(
    alloc: Global,
    predicates: &[Name],
    depth: usize,
    tokens: &'a [Token],
) -> Result<(Boxed<Filter>, Vector<u32>, &'a [Token]), Stop>
    requires { length predicates.now ≤ 5000 }
    ensures { Gives (λ x. (record { filter = x.0; predicates = x.1 }, x.2.now)) result (pred_at predicates.now (split_at predicates.now depth) tokens.now) }
{
    let rest = expect_mark(tokens, Mark::Open)?;
    let (filter, places, rest) = split(alloc, predicates, depth, rest)?;
    let rest = expect_mark(rest, Mark::Comma)?;
    let (place, rest) = first_predicate(predicates, rest)?;
    let rest = expect_mark(rest, Mark::Close)?;
    let places = with_place(places, place)?;
    Ok((filter, places, rest))
}

// A filter, or `PRED` of one. At most `depth` of them lie in one another.
#[cycle(split)]
#[tactic(auto, unfolding(crate::specs::Reading::split_at))]
fn split<'a>(
    alloc: Global,
    predicates: &[Name],
    depth: usize,
    tokens: &'a [Token],
) -> Result<(Boxed<Filter>, Vector<u32>, &'a [Token]), Stop>
    requires { length predicates.now ≤ 5000 }
    ensures { Gives (λ x. (record { filter = x.0; predicates = x.1 }, x.2.now)) result (split_at predicates.now depth tokens.now) }
{
    if depth == 0 {
        return Err(Stop::Syntax);
    }
    if is_pred(first_keyword(tokens)) {
        return behind_pred(alloc, predicates, depth - 1, others(tokens));
    }
    let (filter, rest) = first_filter(alloc, tokens)?;
    Ok((filter, Vector::new(alloc), rest))
}

/// A filter, or `PRED` of one, in front of the tokens.
#[tactic(auto, unfolding(crate::specs::Reading::split_in))]
pub fn first_split<'a>(
    alloc: Global,
    predicates: &[Name],
    tokens: &'a [Token],
) -> Result<(Split, &'a [Token]), Stop>
    requires { length predicates.now ≤ 5000 }
    ensures { Gives (λ x. (x.0, x.1.now)) result (split_in predicates.now tokens.now) }
{
    let (filter, predicates, rest) = split(alloc, predicates, tokens.len() + 1, tokens)?;
    let filter = filter.into_inner();
    Ok((Split { filter, predicates }, rest))
}

/// The same in parentheses.
#[tactic(auto, unfolding(crate::specs::Reading::single_at, crate::specs::Reading::split_in))]
pub fn bracketed_split<'a>(
    alloc: Global,
    predicates: &[Name],
    tokens: &'a [Token],
) -> Result<(Split, &'a [Token]), Stop>
    requires { length predicates.now ≤ 5000 }
    ensures { Gives (λ x. (x.0, x.1.now)) result (single_at (split_in predicates.now) tokens.now) }
{
    let rest = expect_mark(tokens, Mark::Open)?;
    let (filter, predicates, rest) = split(alloc, predicates, rest.len() + 1, rest)?;
    let rest = expect_mark(rest, Mark::Close)?;
    let filter = filter.into_inner();
    Ok((Split { filter, predicates }, rest))
}
