// Reading whole queries.
ghost use Rattle.std.specs.Prelude.{◌≡◌, ◌≤◌, length, Ok, Err, IfOk, MatchOption};
ghost use Rattle.fq_core.specs.Refusals.{IsUnlessMemory};
ghost use Rattle.fql_read.specs.Gives.{Gives};
ghost use Rattle.fql_read.specs.QueryForm.{predicates_of};
ghost use Rattle.fql_read.specs.ReadingQueries.{past, clause_at, is_in, is_cover, is_passing, base_at, cover_at, passing_at, query_at, spelled_of, limited, tokens_outcome};

use crate::covers::expression;
use crate::cursor::{first_keyword, others, place_of, starts_with};
use crate::filter::Filter;
use crate::filters::first_filter;
use crate::limits::{MOST_LETTERS, bad_number, has_few_letters, repetition};
use crate::operator::Part;
use crate::query::{Clause, Query};
use crate::stop::Stop;
use containers::Vector;
use fq_core::{Fault, Memory, Name, Place};
use fql_tokens::{Keyword, Mark, Sign, Token, refusal};
use std::alloc::Global;

/// The texts of the predicates among tokens, each once, in order of first use.
#[tactic(auto, using(crate::proofs::Predicates::one_more), unfolding(crate::specs::QueryForm::predicates_of))]
fn predicates_of(alloc: Global, tokens: &[Token]) -> Result<Vector<Name>, Memory>
    ensures texts { IfOk result (λ list. list ≡ predicates_of tokens.now) }
    ensures few { IfOk result (λ list. length list ≤ length tokens.now) }
{
    let mut list = Vector::new(alloc);
    for token in tokens {
        if let Sign::Predicate(text) = &token.sign {
            if place_of(&list, text.bytes()).is_none() {
                list.push(Name::new(alloc, text.bytes())?)?;
            }
        }
    }
    Ok(list)
}

// What follows this mark, if it stands there.
fn past(tokens: &[Token], mark: Mark) -> &[Token]
    ensures { result.now ≡ past mark tokens.now }
{
    if starts_with(tokens, mark) {
        others(tokens)
    } else {
        tokens
    }
}

#[tactic(auto, unfolding(crate::specs::ReadingQueries::clause_at))]
fn clause<'a>(
    alloc: Global,
    text: &[u8],
    predicates: &[Name],
    part: Part,
    tokens: &'a [Token],
) -> Result<(Clause, &'a [Token]), Stop>
    requires { length predicates.now ≤ 5000 }
    ensures { Gives (λ x. (x.0, x.1.now)) result (clause_at text.now predicates.now part tokens.now) }
{
    let first = starts_with(tokens, Mark::Start);
    let rest = past(tokens, Mark::Start);
    let (body, rest) = expression(alloc, text, predicates, part, rest.len() + 1, 1, rest)?;
    let clause = Clause {
        first,
        body: body.into_inner(),
        last: starts_with(rest, Mark::End),
    };
    Ok((clause, past(rest, Mark::End)))
}

fn is_in(keyword: Option<Keyword>) -> bool
    ensures { result ≡ is_in keyword }
{
    match keyword {
        Some(Keyword::In) => true,
        _ => false,
    }
}

fn is_cover(keyword: Option<Keyword>) -> bool
    ensures { result ≡ is_cover keyword }
{
    match keyword {
        Some(Keyword::Cover) => true,
        _ => false,
    }
}

fn is_passing(keyword: Option<Keyword>) -> bool
    ensures { result ≡ is_passing keyword }
{
    match keyword {
        Some(Keyword::Passing) => true,
        _ => false,
    }
}

#[tactic(auto, unfolding(crate::specs::ReadingQueries::base_at))]
fn base(alloc: Global, tokens: &[Token]) -> Result<(Option<Filter>, &[Token]), Stop>
    ensures { Gives (λ x. (x.0, x.1.now)) result (base_at tokens.now) }
{
    if is_in(first_keyword(tokens)) {
        let (filter, rest) = first_filter(alloc, others(tokens))?;
        Ok((Some(filter.into_inner()), rest))
    } else {
        Ok((None, tokens))
    }
}

#[tactic(auto, unfolding(crate::specs::ReadingQueries::cover_at))]
fn cover<'a>(
    alloc: Global,
    text: &[u8],
    predicates: &[Name],
    tokens: &'a [Token],
) -> Result<(Clause, &'a [Token]), Stop>
    requires { length predicates.now ≤ 5000 }
    ensures { Gives (λ x. (x.0, x.1.now)) result (cover_at text.now predicates.now tokens.now) }
{
    if is_cover(first_keyword(tokens)) {
        clause(alloc, text, predicates, Part::Cover, others(tokens))
    } else {
        Err(Stop::Syntax)
    }
}

#[tactic(auto, unfolding(crate::specs::ReadingQueries::passing_at))]
fn passing<'a>(
    alloc: Global,
    text: &[u8],
    predicates: &[Name],
    tokens: &'a [Token],
) -> Result<(Option<Clause>, &'a [Token]), Stop>
    requires { length predicates.now ≤ 5000 }
    ensures { Gives (λ x. (x.0, x.1.now)) result (passing_at text.now predicates.now tokens.now) }
{
    if is_passing(first_keyword(tokens)) {
        let (clause, rest) = clause(alloc, text, predicates, Part::Passing, others(tokens))?;
        Ok((Some(clause), rest))
    } else {
        Ok((None, tokens))
    }
}

#[tactic(auto, unfolding(crate::specs::ReadingQueries::query_at))]
fn query(
    alloc: Global,
    text: &[u8],
    predicates: Vector<Name>,
    tokens: &[Token],
) -> Result<Query, Stop>
    requires { length predicates ≤ 5000 }
    ensures { Gives (λ x. x) result (query_at text.now predicates tokens.now) }
{
    let (base, rest) = base(alloc, tokens)?;
    let (cover, rest) = cover(alloc, text, &predicates, rest)?;
    let (passing, rest) = passing(alloc, text, &predicates, rest)?;
    match rest {
        [] => Ok(Query {
            base,
            cover,
            passing,
            predicates,
        }),
        _ => Err(Stop::Syntax),
    }
}

// The query that tokens spell.
fn spelled(alloc: Global, text: &[u8], tokens: &[Token]) -> Result<Query, Fault>
    requires { length tokens.now ≤ 5000 }
    ensures { IsUnlessMemory result (spelled_of (query_at text.now (predicates_of tokens.now) tokens.now)) }
{
    let predicates = predicates_of(alloc, tokens)?;
    match query(alloc, text, predicates, tokens) {
        Ok(query) => Ok(query),
        Err(Stop::Syntax) => Err(refusal(61, Place::QueryWhole)),
        Err(Stop::Memory) => Err(Fault::Memory),
    }
}

// The first limit that a query breaks.
fn broken_limit(query: &Query, tokens: &[Token]) -> Option<Fault>
    requires { length tokens.now ≤ 5000 }
    ensures { MatchOption result (limited tokens.now query.now ≡ Ok query.now) (λ fault. limited tokens.now query.now ≡ Err fault) }
{
    if let Some(column) = repetition(&query.cover.body) {
        return Some(refusal(62, Place::Query { column }));
    }
    if let Some(column) = bad_number(tokens) {
        return Some(refusal(64, Place::Query { column }));
    }
    if has_few_letters(query, tokens) {
        return None;
    }
    let number = MOST_LETTERS as u64;
    Some(refusal(63, Place::Limit { number }))
}

fn limited(query: Query, tokens: &[Token]) -> Result<Query, Fault>
    requires { length tokens.now ≤ 5000 }
    ensures { result ≡ limited tokens.now query }
{
    match broken_limit(&query, tokens) {
        Some(fault) => Err(fault),
        None => Ok(query),
    }
}

/// The query that tokens spell, within its limits.
pub fn limited_query(alloc: Global, text: &[u8], tokens: &[Token]) -> Result<Query, Fault>
    requires { length tokens.now ≤ 5000 }
    ensures { IsUnlessMemory result (tokens_outcome text.now tokens.now) }
{
    match spelled(alloc, text, tokens) {
        Ok(query) => limited(query, tokens),
        Err(fault) => Err(fault),
    }
}
