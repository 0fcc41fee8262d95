// The patterns of clauses and of words.
ghost use Rattle.std.specs.Prelude.{◌≡◌, IfOk, [], ◌∷◌, map, slice_index_or};
ghost use Rattle.goals.specs.applied_clauses.Trees.{tree_of};
ghost use Rattle.goals.specs.Forms.{edge_pattern, either_of, letter_pattern, path_pattern, pattern_of, word_pattern};
ghost use Rattle.patterns.specs.declared.pattern.Pattern.TheVariants as pattern;

use crate::applied_clauses::AppliedTree;
use crate::goal_letter::GoalLetter;
use containers::{Boxed, TryClone, Vector};
use fq_core::Memory;
use patterns::{Letter, NumberSet, Pattern};
use std::alloc::Global;

fn single(alloc: Global, number: u32) -> Result<NumberSet, Memory>
    ensures { IfOk result (λ set. set ≡ number ∷ []) }
{
    let mut numbers = Vec::new(alloc);
    numbers.push(number)?;
    Ok(NumberSet::new(alloc, numbers)?)
}

fn dot(alloc: Global, a: Pattern<Letter>, b: Pattern<Letter>) -> Result<Pattern<Letter>, Memory>
    ensures { IfOk result (λ p. p ≡ pattern.Dot a b) }
{
    let a = Boxed::new(alloc, a)?;
    let b = Boxed::new(alloc, b)?;
    Ok(Pattern::Dot(a, b))
}

fn either(alloc: Global, a: Pattern<Letter>, b: Pattern<Letter>) -> Result<Pattern<Letter>, Memory>
    ensures { IfOk result (λ p. p ≡ pattern.Either a b) }
{
    let a = Boxed::new(alloc, a)?;
    let b = Boxed::new(alloc, b)?;
    Ok(Pattern::Either(a, b))
}

fn repeat(
    alloc: Global,
    body: Pattern<Letter>,
    least: u32,
    most: Option<u32>,
) -> Result<Pattern<Letter>, Memory>
    ensures { IfOk result (λ p. p ≡ pattern.Repeat body least most) }
{
    let body = Boxed::new(alloc, body)?;
    Ok(Pattern::Repeat { body, least, most })
}

/// The same pattern, which shares the sets of its letters.
pub(crate) fn copy(alloc: Global, own: &Pattern<Letter>) -> Result<Pattern<Letter>, Memory>
    ensures { IfOk result (λ p. p ≡ own.now) }
{
    match own {
        Pattern::Nothing => Ok(Pattern::Nothing),
        Pattern::Letter(letter) => Ok(Pattern::Letter(letter.try_clone(alloc)?)),
        Pattern::Dot(a, b) => {
            let first = copy(alloc, a)?;
            let second = copy(alloc, b)?;
            dot(alloc, first, second)
        }
        Pattern::Either(a, b) => {
            let first = copy(alloc, a)?;
            let second = copy(alloc, b)?;
            either(alloc, first, second)
        }
        Pattern::Repeat { body, least, most } => {
            let body = copy(alloc, body)?;
            repeat(alloc, body, *least, *most)
        }
    }
}

fn edge_pattern(alloc: Global, edge: u32) -> Result<Pattern<Letter>, Memory>
    ensures { IfOk result (λ p. p ≡ edge_pattern edge) }
{
    let set = single(alloc, edge)?;
    Ok(Pattern::Letter(Letter::Edges(set)))
}

/// The edges of a path, one after another.
fn path_pattern(alloc: Global, path: &[u32]) -> Result<Pattern<Letter>, Memory>
    ensures { IfOk result (λ p. p ≡ path_pattern path.now) }
{
    let Some((first, others)) = path.split_first() else {
        return Ok(Pattern::Nothing);
    };
    let mut pattern = edge_pattern(alloc, *first)?;
    for edge in others {
        let next = edge_pattern(alloc, *edge)?;
        pattern = dot(alloc, pattern, next)?;
    }
    Ok(pattern)
}

/// One of these paths.
fn paths_pattern(alloc: Global, paths: &[Vector<u32>]) -> Result<Pattern<Letter>, Memory>
    ensures { IfOk result (λ p. p ≡ either_of (map path_pattern paths.now)) }
{
    let Some((first, others)) = paths.split_first() else {
        return Ok(Pattern::Nothing);
    };
    let mut pattern = path_pattern(alloc, first)?;
    for path in others {
        let next = path_pattern(alloc, path)?;
        pattern = either(alloc, pattern, next)?;
    }
    Ok(pattern)
}

/// A clause as a regular pattern, which shares the sets of its letters.
#[tactic(auto, unfolding(crate::specs::applied_clauses::Trees::tree_of))]
pub(crate) fn pattern_of(alloc: Global, tree: &AppliedTree) -> Result<Pattern<Letter>, Memory>
    ensures { IfOk result (λ p. p ≡ pattern_of (tree_of tree.now)) }
{
    match tree {
        AppliedTree::Nodes(nodes, _) => Ok(Pattern::Letter(Letter::Nodes(nodes.try_clone(alloc)?))),
        AppliedTree::Edges(edges, _) => Ok(Pattern::Letter(Letter::Edges(edges.try_clone(alloc)?))),
        AppliedTree::Paths(paths) => paths_pattern(alloc, paths),
        AppliedTree::Predicate(number) => Ok(Pattern::Letter(Letter::Predicate(*number))),
        AppliedTree::Quoted { body, .. } => pattern_of(alloc, body),
        AppliedTree::Dot(a, b) => {
            let first = pattern_of(alloc, a)?;
            let second = pattern_of(alloc, b)?;
            dot(alloc, first, second)
        }
        AppliedTree::Plus(a, b) => {
            let first = pattern_of(alloc, a)?;
            let second = pattern_of(alloc, b)?;
            either(alloc, first, second)
        }
        AppliedTree::Repeat { body, least, most } => {
            let body = pattern_of(alloc, body)?;
            repeat(alloc, body, *least, *most)
        }
    }
}

fn quote_pattern(
    alloc: Global,
    quotes: &[Pattern<Letter>],
    number: u32,
) -> Result<Pattern<Letter>, Memory>
    ensures { IfOk result (λ p. p ≡ slice_index_or (quotes.now) number pattern.Nothing) }
{
    match quotes.get(number as usize) {
        None => Ok(Pattern::Nothing),
        Some(pattern) => copy(alloc, pattern),
    }
}

fn letter_pattern(
    alloc: Global,
    quotes: &[Pattern<Letter>],
    own: GoalLetter,
) -> Result<Pattern<Letter>, Memory>
    ensures { IfOk result (λ p. p ≡ letter_pattern (quotes.now) own) }
{
    match own {
        GoalLetter::Node(node) => Ok(Pattern::Letter(Letter::Nodes(single(alloc, node)?))),
        GoalLetter::Edge(edge) => edge_pattern(alloc, edge),
        GoalLetter::Predicate(number) => Ok(Pattern::Letter(Letter::Predicate(number))),
        GoalLetter::Absent(number) => Ok(Pattern::Letter(Letter::Absent(number))),
        GoalLetter::Quoted(number) => quote_pattern(alloc, quotes, number),
    }
}

/// The letters of a word, one after another, where these are the patterns of the quoted letters by number.
pub(crate) fn word_pattern(
    alloc: Global,
    quotes: &[Pattern<Letter>],
    word: &[GoalLetter],
) -> Result<Pattern<Letter>, Memory>
    ensures { IfOk result (λ p. p ≡ word_pattern (quotes.now) word.now) }
{
    let Some((first, others)) = word.split_first() else {
        return Ok(Pattern::Nothing);
    };
    let mut pattern = letter_pattern(alloc, quotes, *first)?;
    for own in others {
        let next = letter_pattern(alloc, quotes, *own)?;
        pattern = dot(alloc, pattern, next)?;
    }
    Ok(pattern)
}
