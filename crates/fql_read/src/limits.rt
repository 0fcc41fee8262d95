// What is refused of a query that the tokens spell, by its limits.
ghost use Rattle.std.specs.Prelude.{◌≡◌, ◌-◌, ◌≤◌, length, nat_le};
ghost use Rattle.std.specs.Option.{SomeIff};
ghost use Rattle.fql_read.specs.Tables.{is_pred, keyword_in};
ghost use Rattle.fql_read.specs.QueryLimits.{or_first, first_repetition, bounds_behind, is_outside, sign_outside, bad_number, most_letters, letters, clause_letters, letters_of, opens, preds, preds_behind};

use crate::cover::CoverTree;
use crate::query::Query;
use crate::splits::is_pred;
use fql_tokens::{Mark, Sign, Token};

/// The greatest number of letters of a query.
pub const MOST_LETTERS: u32 = 200;

/// Which numbers may stand at a place.
#[derive(Clone, Copy, Debug, PartialEq, Eq)]
pub enum Bounds {
    Any,
    /// From 1 to 100.
    Path,
    /// From 0 to 100.
    Repetition,
}

/// The column of the first mark outside quotation marks that says how often an expression occurs.
#[tactic(auto, unfolding(crate::specs::QueryLimits::first_repetition))]
pub fn repetition(tree: &CoverTree) -> Option<u32>
    ensures { result ≡ first_repetition tree.now }
{
    match tree {
        CoverTree::Nodes(_)
        | CoverTree::Edges(_)
        | CoverTree::Paths(_, _)
        | CoverTree::Predicate(_)
        | CoverTree::Quoted { .. } => None,
        CoverTree::Dot(left, right)
        | CoverTree::Plus(left, right)
        | CoverTree::Arrow(left, right) => match repetition(left) {
            Some(column) => Some(column),
            None => repetition(right),
        },
        CoverTree::Repeat { body, column, .. } => match repetition(body) {
            Some(first) => Some(first),
            None => Some(*column),
        },
    }
}

fn bounds_behind(sign: &Sign) -> Bounds
    ensures { result ≡ bounds_behind sign.now }
{
    match sign {
        Sign::Mark(Mark::Comma) => Bounds::Path,
        Sign::Mark(Mark::Exactly | Mark::AtMost | Mark::AtLeast) => Bounds::Repetition,
        _ => Bounds::Any,
    }
}

fn is_outside(bounds: Bounds, number: u32) -> bool
    ensures { result ≡ is_outside bounds number }
{
    match bounds {
        Bounds::Any => false,
        Bounds::Path => number == 0 || number > 100,
        Bounds::Repetition => number > 100,
    }
}

fn sign_outside(bounds: Bounds, sign: &Sign) -> bool
    ensures { result ≡ sign_outside bounds sign.now }
{
    match sign {
        Sign::Number(number) => is_outside(bounds, *number),
        _ => false,
    }
}

/// The column of the first number that is outside its bounds.
#[tactic(auto, unfolding(crate::specs::QueryLimits::bad_number))]
pub fn bad_number(tokens: &[Token]) -> Option<u32>
    ensures { result ≡ bad_number tokens.now }
{
    let mut bounds = Bounds::Any;
    for token in tokens {
        if sign_outside(bounds, &token.sign) {
            return Some(token.column);
        }
        bounds = bounds_behind(&token.sign);
    }
    None
}

// How many letters may still come behind an expression, of so many before it.
#[tactic(auto, unfolding(crate::specs::QueryLimits::letters))]
fn letters_left(tree: &CoverTree, most: u32) -> Option<u32>
    ensures { SomeIff result (letters tree.now ≤ most) (most - letters tree.now) }
{
    match tree {
        CoverTree::Nodes(_)
        | CoverTree::Edges(_)
        | CoverTree::Paths(_, _)
        | CoverTree::Predicate(_) => most.checked_sub(1),
        CoverTree::Quoted { body, .. } | CoverTree::Repeat { body, .. } => letters_left(body, most),
        CoverTree::Dot(left, right)
        | CoverTree::Plus(left, right)
        | CoverTree::Arrow(left, right) => match letters_left(left, most) {
            Some(rest) => letters_left(right, rest),
            None => None,
        },
    }
}

// Whether both clauses have no more letters than this.
fn has_few_letters_in_clauses(query: &Query, most: u32) -> bool
    ensures { result ≡ nat_le (clause_letters query.now) most }
{
    match letters_left(&query.cover.body, most) {
        None => false,
        Some(rest) => match &query.passing {
            None => true,
            Some(clause) => letters_left(&clause.body, rest).is_some(),
        },
    }
}

fn opens(sign: &Sign) -> bool
    ensures { result ≡ opens sign.now }
{
    match sign {
        Sign::Mark(Mark::Open) => true,
        _ => false,
    }
}

// Whether a token is the word `PRED`.
fn is_pred_word(sign: &Sign) -> bool
    ensures { result ≡ is_pred (keyword_in sign.now) }
{
    match sign {
        Sign::Word(keyword, _) => is_pred(*keyword),
        _ => false,
    }
}

// How many `PRED` there are among tokens.
#[tactic(auto, unfolding(crate::specs::QueryLimits::preds))]
fn preds(tokens: &[Token]) -> u32
    requires { length tokens.now ≤ 5000 }
    ensures { result ≡ preds tokens.now }
{
    let mut count = 0;
    let mut behind = false;
    for token in tokens {
        if behind && opens(&token.sign) {
            count += 1;
        }
        behind = is_pred_word(&token.sign);
    }
    count
}

/// Whether a query that these tokens spell has no more letters than the limit allows.
pub fn has_few_letters(query: &Query, tokens: &[Token]) -> bool
    requires { length tokens.now ≤ 5000 }
    ensures { result ≡ nat_le (letters_of tokens.now query.now) most_letters }
{
    match MOST_LETTERS.checked_sub(preds(tokens)) {
        None => false,
        Some(most) => has_few_letters_in_clauses(query, most),
    }
}
