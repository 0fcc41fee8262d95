// Reading the expressions of clauses.
ghost use Rattle.std.specs.Prelude.{◌≡◌, ◌≤◌, ◌<◌, length, Some, None, IfOk, take, drop};
ghost use Rattle.fql_read.specs.Gives.{Gives};
ghost use Rattle.fql_read.specs.Forms.{joined, least_of, most_of, between};
ghost use Rattle.fql_read.specs.Reading.{paths_at, quoted_at, closed_at, atom_at, operand_at, behind, level_by, expr_at};

use crate::cover::CoverTree;
use crate::cursor::{
    expect_mark, first_column, first_number, first_operator, first_predicate, others,
};
use crate::filter::Filter;
use crate::filters::first_filter;
use crate::operator::{Atom, Count, Join, Operator, Part, atom_of, level_of};
use crate::splits::{bracketed_split, first_split};
use crate::stop::Stop;
use containers::Boxed;
use fq_core::Name;
use fql_tokens::{Mark, Token};
use std::alloc::{AllocError, Global};

// An expression in a box of its own.
fn node(alloc: Global, tree: CoverTree) -> Result<Boxed<CoverTree>, AllocError>
    ensures { IfOk result (λ x. x ≡ tree) }
{
    Boxed::new(alloc, tree)
}

fn joined(join: Join, left: Boxed<CoverTree>, right: Boxed<CoverTree>) -> CoverTree
    ensures { result ≡ joined join left right }
{
    match join {
        Join::Plus => CoverTree::Plus(left, right),
        Join::Arrow => CoverTree::Arrow(left, right),
        Join::Dot => CoverTree::Dot(left, right),
    }
}

fn least_of(count: Count, number: u32) -> u32
    ensures { result ≡ least_of count number }
{
    match count {
        Count::Exactly | Count::AtLeast => number,
        Count::AtMost => 0,
    }
}

fn most_of(count: Count, number: u32) -> Option<u32>
    ensures { result ≡ most_of count number }
{
    match count {
        Count::Exactly | Count::AtMost => Some(number),
        Count::AtLeast => None,
    }
}

fn first_bytes(text: &[u8], length: usize) -> &[u8]
    ensures { result.now ≡ take length text.now }
{
    if length < text.len() {
        &text[..length]
    } else {
        text
    }
}

fn bytes_from(text: &[u8], at: usize) -> &[u8]
    ensures { result.now ≡ drop at text.now }
{
    if at < text.len() { &text[at..] } else { &[] }
}

// The bytes between those at two columns.
fn between(text: &[u8], from: u32, to: u32) -> &[u8]
    ensures { result.now ≡ between text.now from to }
{
    let length = to.saturating_sub(1).saturating_sub(from);
    first_bytes(bytes_from(text, from as usize), length as usize)
}

// A filter and a number in parentheses.
#[tactic(auto, unfolding(crate::specs::Reading::paths_at))]
fn bracketed_paths(alloc: Global, tokens: &[Token]) -> Result<(Filter, u32, &[Token]), Stop>
    ensures { Gives (λ x. ((x.0, x.1), x.2.now)) result (paths_at tokens.now) }
{
    let rest = expect_mark(tokens, Mark::Open)?;
    let (filter, rest) = first_filter(alloc, rest)?;
    let rest = expect_mark(rest, Mark::Comma)?;
    let (number, rest) = first_number(rest)?;
    let rest = expect_mark(rest, Mark::Close)?;
    Ok((filter.into_inner(), number, rest))
}

// An expression, and a mark behind it.
#[cycle(cover)]
#[tactic(auto, unfolding(crate::specs::Reading::closed_at))]
fn closed<'a>(
    alloc: Global,
    text: &[u8],
    predicates: &[Name],
    part: Part,
    depth: usize,
    mark: Mark,
    tokens: &'a [Token],
) -> Result<(Boxed<CoverTree>, &'a [Token]), Stop>
    requires { length predicates.now ≤ 5000 }
    ensures { Gives (λ x. (x.0, x.1.now)) result (closed_at (expr_at text.now predicates.now depth) part mark tokens.now) }
{
    let (tree, rest) = expression(alloc, text, predicates, part, depth, 1, tokens)?;
    let rest = expect_mark(rest, mark)?;
    Ok((tree, rest))
}

// What follows an opening quotation mark.
#[cycle(cover)]
#[tactic(auto, unfolding(crate::specs::Reading::quoted_at))]
fn quoted<'a>(
    alloc: Global,
    text: &[u8],
    predicates: &[Name],
    part: Part,
    depth: usize,
    column: u32,
    tokens: &'a [Token],
) -> Result<(Boxed<CoverTree>, &'a [Token]), Stop>
    requires { length predicates.now ≤ 5000 }
    ensures { Gives (λ x. (x.0, x.1.now)) result (quoted_at text.now (expr_at text.now predicates.now depth) part column tokens.now) }
{
    match part {
        Part::Cover => {
            let (body, rest) = expression(alloc, text, predicates, Part::Quoted, depth, 1, tokens)?;
            let end = first_column(rest);
            let rest = expect_mark(rest, Mark::Quote)?;
            let text = Name::new(alloc, between(text, column, end))?;
            Ok((node(alloc, CoverTree::Quoted { body, text })?, rest))
        }
        Part::Passing => closed(
            alloc,
            text,
            predicates,
            Part::Quoted,
            depth,
            Mark::Quote,
            tokens,
        ),
        Part::Quoted => Err(Stop::Syntax),
    }
}

// What an expression begins with.
#[cycle(cover)]
#[tactic(auto, unfolding(crate::specs::Reading::operand_at, crate::specs::Reading::atom_at))]
fn operand<'a>(
    alloc: Global,
    text: &[u8],
    predicates: &[Name],
    part: Part,
    depth: usize,
    tokens: &'a [Token],
) -> Result<(Boxed<CoverTree>, &'a [Token]), Stop>
    requires { length predicates.now ≤ 5000 }
    ensures { Gives (λ x. (x.0, x.1.now)) result (operand_at text.now predicates.now (expr_at text.now predicates.now depth) part tokens.now) }
{
    let [first, rest @ ..] = tokens else {
        return Err(Stop::Syntax);
    };
    match atom_of(&first.sign) {
        Atom::Nodes => {
            let (split, rest) = bracketed_split(alloc, predicates, rest)?;
            Ok((node(alloc, CoverTree::Nodes(split))?, rest))
        }
        Atom::Edges => {
            let (split, rest) = bracketed_split(alloc, predicates, rest)?;
            Ok((node(alloc, CoverTree::Edges(split))?, rest))
        }
        Atom::Paths => {
            let (filter, number, rest) = bracketed_paths(alloc, rest)?;
            Ok((node(alloc, CoverTree::Paths(filter, number))?, rest))
        }
        Atom::Predicate => {
            let (place, rest) = first_predicate(predicates, tokens)?;
            Ok((node(alloc, CoverTree::Predicate(place))?, rest))
        }
        Atom::Group => closed(alloc, text, predicates, part, depth, Mark::Close, rest),
        Atom::Quote => quoted(alloc, text, predicates, part, depth, first.column, rest),
        Atom::Filter => {
            let (split, rest) = first_split(alloc, predicates, tokens)?;
            Ok((node(alloc, CoverTree::Edges(split))?, rest))
        }
    }
}

/// What an expression goes on by, and where.
#[derive(Clone, Copy)]
pub struct Joint {
    pub operator: Operator,
    pub part: Part,
    pub column: u32,
}

// An expression goes on by an operator.
#[cycle(cover)]
#[tactic(auto, unfolding(crate::specs::Reading::behind))]
fn behind<'a>(
    alloc: Global,
    text: &[u8],
    predicates: &[Name],
    joint: Joint,
    depth: usize,
    body: Boxed<CoverTree>,
    tokens: &'a [Token],
) -> Result<(Boxed<CoverTree>, &'a [Token]), Stop>
    requires { length predicates.now ≤ 5000 }
    ensures { Gives (λ x. (x.0, x.1.now)) result (behind (expr_at text.now predicates.now depth) joint.part joint.operator body joint.column tokens.now) }
{
    let column = joint.column;
    match joint.operator {
        Operator::Join(join) => {
            let level = level_of(joint.operator) + 1;
            let (right, rest) = expression(
                alloc, text, predicates, joint.part, depth, level, tokens,
            )?;
            Ok((node(alloc, joined(join, body, right))?, rest))
        }
        Operator::Star => {
            let tree = CoverTree::Repeat {
                body,
                least: 0,
                most: None,
                column,
            };
            Ok((node(alloc, tree)?, tokens))
        }
        Operator::Count(count) => {
            let (number, rest) = first_number(tokens)?;
            let tree = CoverTree::Repeat {
                body,
                least: least_of(count, number),
                most: most_of(count, number),
                column,
            };
            Ok((node(alloc, tree)?, rest))
        }
    }
}

// An expression whose operators bind so tightly or tighter.
#[cycle(cover)]
#[tactic(auto, unfolding(crate::specs::Reading::level_by))]
fn operation<'a>(
    alloc: Global,
    text: &[u8],
    predicates: &[Name],
    part: Part,
    depth: usize,
    level: u8,
    tokens: &'a [Token],
) -> Result<(Boxed<CoverTree>, &'a [Token]), Stop>
    requires few { length predicates.now ≤ 5000 }
    requires level { level < 100 }
    ensures { Gives (λ x. (x.0, x.1.now)) result (level_by text.now predicates.now (expr_at text.now predicates.now depth) part level tokens.now) }
{
    let (mut tree, mut rest) = operand(alloc, text, predicates, part, depth, tokens)?;
    for _ in 0..rest.len() {
        let Some(operator) = first_operator(rest) else {
            break;
        };
        if level_of(operator) < level {
            break;
        }
        let joint = Joint {
            operator,
            part,
            column: first_column(rest),
        };
        let (next, after) = behind(alloc, text, predicates, joint, depth, tree, others(rest))?;
        tree = next;
        rest = after;
    }
    Ok((tree, rest))
}

/// An expression whose operators bind so tightly or tighter. At most `depth` of them lie in one another.
#[cycle(cover)]
#[tactic(auto, unfolding(crate::specs::Reading::expr_at))]
pub fn expression<'a>(
    alloc: Global,
    text: &[u8],
    predicates: &[Name],
    part: Part,
    depth: usize,
    level: u8,
    tokens: &'a [Token],
) -> Result<(Boxed<CoverTree>, &'a [Token]), Stop>
    requires few { length predicates.now ≤ 5000 }
    requires level { level < 100 }
    ensures { Gives (λ x. (x.0, x.1.now)) result (expr_at text.now predicates.now depth part level tokens.now) }
{
    if depth == 0 {
        return Err(Stop::Syntax);
    }
    operation(alloc, text, predicates, part, depth - 1, level, tokens)
}
