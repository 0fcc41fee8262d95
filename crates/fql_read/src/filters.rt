// Reading filters.
ghost use Rattle.std.specs.Prelude.{◌≡◌, IfOk};
ghost use Rattle.fql_read.specs.Gives.{Gives};
ghost use Rattle.fql_read.specs.Forms.{filter, bare_form, named_form, single_form, double_form};
ghost use Rattle.fql_read.specs.Reading.{single_at, double_at, after_head, filter_at, filter_in};

use crate::cursor::{bracketed_file, bracketed_name, bracketed_number, expect_mark};
use crate::filter::{Filter, FilterForm};
use crate::kinds::kinds;
use crate::operator::{BareFilter, DoubleFilter, Head, NamedFilter, SingleFilter, head_of};
use crate::stop::Stop;
use containers::Boxed;
use fq_core::Name;
use fql_tokens::{Mark, Token};
use std::alloc::{AllocError, Global};

// A filter in a box of its own.
fn node(alloc: Global, column: u32, form: FilterForm) -> Result<Boxed<Filter>, AllocError>
    ensures { IfOk result (λ x. x ≡ filter column form) }
{
    Boxed::new(alloc, Filter { column, form })
}

fn bare_form(filter: BareFilter) -> FilterForm
    ensures { result ≡ bare_form filter }
{
    match filter {
        BareFilter::Id => FilterForm::Id,
        BareFilter::BasicBlockEntry => FilterForm::BasicBlockEntry,
        BareFilter::ConditionEdge => FilterForm::ConditionEdge,
        BareFilter::ConditionGraph => FilterForm::ConditionGraph,
        BareFilter::DecisionEdge => FilterForm::DecisionEdge,
    }
}

fn named_form(filter: NamedFilter, name: Name) -> FilterForm
    ensures { result ≡ named_form filter name }
{
    match filter {
        NamedFilter::Func => FilterForm::Func(name),
        NamedFilter::Label => FilterForm::Label(name),
        NamedFilter::Call => FilterForm::Call(name),
        NamedFilter::Entry => FilterForm::Entry(name),
        NamedFilter::Exit => FilterForm::Exit(name),
        NamedFilter::Definition => FilterForm::Writes(name),
        NamedFilter::Use => FilterForm::Reads(name),
    }
}

fn single_form(filter: SingleFilter, inner: Boxed<Filter>) -> FilterForm
    ensures { result ≡ single_form filter inner }
{
    match filter {
        SingleFilter::Not => FilterForm::Not(inner),
        SingleFilter::Complement => FilterForm::Complement(inner),
    }
}

fn double_form(filter: DoubleFilter, left: Boxed<Filter>, right: Boxed<Filter>) -> FilterForm
    ensures { result ≡ double_form filter left right }
{
    match filter {
        DoubleFilter::Union => FilterForm::Union(left, right),
        DoubleFilter::Intersect => FilterForm::Intersect(left, right),
        DoubleFilter::SetMinus => FilterForm::SetMinus(left, right),
        DoubleFilter::Compose => FilterForm::Compose(left, right),
    }
}

// One filter in parentheses.
#[cycle(filter)]
#[tactic(auto, unfolding(crate::specs::Reading::single_at))]
fn single(alloc: Global, depth: usize, tokens: &[Token]) -> Result<(Boxed<Filter>, &[Token]), Stop>
    ensures { Gives (λ x. (x.0, x.1.now)) result (single_at (filter_at depth) tokens.now) }
{
    let rest = expect_mark(tokens, Mark::Open)?;
    let (inner, rest) = filter(alloc, depth, rest)?;
    let rest = expect_mark(rest, Mark::Close)?;
    Ok((inner, rest))
}

// Two filters in parentheses.
#[cycle(filter)]
#[tactic(auto, unfolding(crate::specs::Reading::double_at))]
fn double(
    alloc: Global,
    depth: usize,
    tokens: &[Token],
) -> Result<(Boxed<Filter>, Boxed<Filter>, &[Token]), Stop>
    ensures { Gives (λ x. ((x.0, x.1), x.2.now)) result (double_at (filter_at depth) tokens.now) }
{
    let rest = expect_mark(tokens, Mark::Open)?;
    let (left, rest) = filter(alloc, depth, rest)?;
    let rest = expect_mark(rest, Mark::Comma)?;
    let (right, rest) = filter(alloc, depth, rest)?;
    let rest = expect_mark(rest, Mark::Close)?;
    Ok((left, right, rest))
}

// What follows the first token of a filter.
#[cycle(filter)]
#[tactic(auto, unfolding(crate::specs::Reading::after_head))]
fn headed(
    alloc: Global,
    depth: usize,
    head: Head,
    column: u32,
    tokens: &[Token],
) -> Result<(Boxed<Filter>, &[Token]), Stop>
    ensures { Gives (λ x. (x.0, x.1.now)) result (after_head (filter_at depth) head column tokens.now) }
{
    match head {
        Head::Bare(filter) => Ok((node(alloc, column, bare_form(filter))?, tokens)),
        Head::Named(filter) => {
            let (name, rest) = bracketed_name(alloc, tokens)?;
            Ok((node(alloc, column, named_form(filter, name))?, rest))
        }
        Head::File => {
            let (name, rest) = bracketed_file(alloc, tokens)?;
            Ok((node(alloc, column, FilterForm::File(name))?, rest))
        }
        Head::Line => {
            let (line, rest) = bracketed_number(tokens)?;
            Ok((node(alloc, column, FilterForm::Line(line))?, rest))
        }
        Head::Kinds => {
            let (list, rest) = kinds(alloc, tokens)?;
            Ok((node(alloc, column, FilterForm::StatementTypes(list))?, rest))
        }
        Head::Single(filter) => {
            let (inner, rest) = single(alloc, depth, tokens)?;
            Ok((node(alloc, column, single_form(filter, inner))?, rest))
        }
        Head::Double(filter) => {
            let (left, right, rest) = double(alloc, depth, tokens)?;
            Ok((node(alloc, column, double_form(filter, left, right))?, rest))
        }
        Head::Nothing => Err(Stop::Syntax),
    }
}

// A filter. At most `depth` of them lie in one another.
#[cycle(filter)]
#[tactic(auto, unfolding(crate::specs::Reading::filter_at))]
fn filter(alloc: Global, depth: usize, tokens: &[Token]) -> Result<(Boxed<Filter>, &[Token]), Stop>
    ensures { Gives (λ x. (x.0, x.1.now)) result (filter_at depth tokens.now) }
{
    if depth == 0 {
        return Err(Stop::Syntax);
    }
    let [first, rest @ ..] = tokens else {
        return Err(Stop::Syntax);
    };
    headed(alloc, depth - 1, head_of(&first.sign), first.column, rest)
}

/// A filter in front of the tokens.
#[tactic(auto, unfolding(crate::specs::Reading::filter_in))]
pub fn first_filter(alloc: Global, tokens: &[Token]) -> Result<(Boxed<Filter>, &[Token]), Stop>
    ensures { Gives (λ x. (x.0, x.1.now)) result (filter_in tokens.now) }
{
    filter(alloc, tokens.len() + 1, tokens)
}
