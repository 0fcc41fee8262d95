// The words of clauses.
ghost use Rattle.std.specs.Prelude.{◌≡◌, ◌++◌, [], ◌∷◌, IfOk, map};
ghost use Rattle.std.specs.List.{flat_map};
ghost use Rattle.goals.specs.applied_clauses.Trees.{tree_of};
ghost use Rattle.goals.specs.Quotes.{quotes_in};
ghost use Rattle.goals.specs.Words.{edge_words, number_of, product, texts, truth_words, words};
ghost use Rattle.goals.specs.declared.goal_letter.GoalLetter.TheVariants as letter;

use crate::applied_clauses::AppliedTree;
use crate::counts::word_count;
use crate::goal_letter::GoalLetter;
use crate::quotes::{QuotedLetter, number_of};
use containers::{TryClone, Vector};
use fq_core::{Memory, Name};
use std::alloc::{AllocError, Global};

impl TryClone for GoalLetter {
    fn try_clone(&self, _alloc: Global) -> Result<GoalLetter, AllocError> {
        Ok(*self)
    }
}

fn letter_word(alloc: Global, letter: GoalLetter) -> Result<Vector<GoalLetter>, Memory>
    ensures { IfOk result (λ word. word ≡ letter ∷ []) }
{
    let mut word = Vector::new(alloc);
    word.push(letter)?;
    Ok(word)
}

fn single_word(alloc: Global, letter: GoalLetter) -> Result<Vector<Vector<GoalLetter>>, Memory>
    ensures { IfOk result (λ words. words ≡ (letter ∷ []) ∷ []) }
{
    let mut words = Vector::new(alloc);
    words.push(letter_word(alloc, letter)?)?;
    Ok(words)
}

fn path_word(alloc: Global, path: &[u32]) -> Result<Vector<GoalLetter>, Memory>
    ensures { IfOk result (λ word. word ≡ map letter.Edge path.now) }
{
    let mut word = Vector::new(alloc);
    for edge in path {
        word.push(GoalLetter::Edge(*edge))?;
    }
    Ok(word)
}

fn path_words(alloc: Global, paths: &[Vector<u32>]) -> Result<Vector<Vector<GoalLetter>>, Memory>
    ensures { IfOk result (λ words. words ≡ map (λ path. map letter.Edge path) paths.now) }
{
    let mut words = Vector::new(alloc);
    for path in paths {
        words.push(path_word(alloc, path)?)?;
    }
    Ok(words)
}

fn quoted_words(
    alloc: Global,
    quotes: &[QuotedLetter],
    text: &Name,
) -> Result<Vector<Vector<GoalLetter>>, Memory>
    ensures { IfOk result (λ words. words ≡ (letter.Quoted (number_of (texts (quotes_in quotes.now)) text.now) ∷ []) ∷ []) }
{
    match u32::try_from(number_of(quotes, text)) {
        Ok(number) => single_word(alloc, GoalLetter::Quoted(number)),
        Err(_) => Err(Memory),
    }
}

fn followed(
    alloc: Global,
    word: &[GoalLetter],
    next: &[GoalLetter],
) -> Result<Vector<GoalLetter>, Memory>
    ensures { IfOk result (λ joined. joined ≡ word.now ++ next.now) }
{
    let mut joined = Vec::from_slice(alloc, word)?;
    joined.extend_from_slice(next)?;
    Ok(Vector::from_vec(joined))
}

/// The words, and behind them this word followed by each of the others.
fn with_followed(
    alloc: Global,
    mut words: Vector<Vector<GoalLetter>>,
    word: &[GoalLetter],
    others: &[Vector<GoalLetter>],
) -> Result<Vector<Vector<GoalLetter>>, Memory>
    ensures { IfOk result (λ all. all ≡ words ++ map (λ other. word.now ++ other) others.now) }
{
    for other in others {
        words.push(followed(alloc, word, other)?)?;
    }
    Ok(words)
}

fn product(
    alloc: Global,
    firsts: &[Vector<GoalLetter>],
    others: &[Vector<GoalLetter>],
) -> Result<Vector<Vector<GoalLetter>>, Memory>
    ensures { IfOk result (λ words. words ≡ product firsts.now others.now) }
{
    let mut words = Vector::new(alloc);
    for word in firsts {
        words = with_followed(alloc, words, word, others)?;
    }
    Ok(words)
}

/// The words of a predicate that holds and of one that doesn't.
fn truths(alloc: Global, predicate: u32) -> Result<Vector<Vector<GoalLetter>>, Memory>
    ensures { IfOk result (λ words. words ≡ (letter.Predicate predicate ∷ []) ∷ (letter.Absent predicate ∷ []) ∷ []) }
{
    let mut words = Vector::new(alloc);
    words.push(letter_word(alloc, GoalLetter::Predicate(predicate))?)?;
    words.push(letter_word(alloc, GoalLetter::Absent(predicate))?)?;
    Ok(words)
}

/// The truth words of these predicates.
fn truth_words(alloc: Global, predicates: &[u32]) -> Result<Vector<Vector<GoalLetter>>, Memory>
    ensures { IfOk result (λ words. words ≡ truth_words predicates.now) }
{
    match predicates {
        [] => {
            let mut words = Vector::new(alloc);
            words.push(Vector::new(alloc))?;
            Ok(words)
        }
        [first, rest @ ..] => {
            let both = truths(alloc, *first)?;
            let behind = truth_words(alloc, rest)?;
            product(alloc, &both, &behind)
        }
    }
}

/// These words, each behind this letter.
fn before(
    alloc: Global,
    letter: GoalLetter,
    words: &[Vector<GoalLetter>],
) -> Result<Vector<Vector<GoalLetter>>, Memory>
    ensures { IfOk result (λ all. all ≡ map (λ word. letter ∷ word) words.now) }
{
    let first = letter_word(alloc, letter)?;
    let none = Vector::new(alloc);
    let all = with_followed(alloc, none, &first, words)?;
    Ok(all)
}

/// These nodes, each followed by each of these words.
#[tactic(auto, using(crate::proofs::Products::mapped_more))]
fn node_words(
    alloc: Global,
    nodes: &[u32],
    truths: &[Vector<GoalLetter>],
) -> Result<Vector<Vector<GoalLetter>>, Memory>
    ensures { IfOk result (λ words. words ≡ flat_map (λ n. map (λ t. letter.Node n ∷ t) truths.now) nodes.now) }
{
    let mut words = Vector::new(alloc);
    for node in nodes {
        words = joined(words, before(alloc, GoalLetter::Node(*node), truths)?)?;
    }
    Ok(words)
}

/// Each of these words, the edge, and each of them again.
fn edge_words(
    alloc: Global,
    truths: &[Vector<GoalLetter>],
    edge: u32,
) -> Result<Vector<Vector<GoalLetter>>, Memory>
    ensures { IfOk result (λ words. words ≡ edge_words truths.now edge) }
{
    let behind = before(alloc, GoalLetter::Edge(edge), truths)?;
    product(alloc, truths, &behind)
}

/// The words of these edges, each between two of these words.
#[tactic(auto, using(crate::proofs::Products::mapped_more))]
fn all_edge_words(
    alloc: Global,
    truths: &[Vector<GoalLetter>],
    edges: &[u32],
) -> Result<Vector<Vector<GoalLetter>>, Memory>
    ensures { IfOk result (λ words. words ≡ flat_map (edge_words truths.now) edges.now) }
{
    let mut words = Vector::new(alloc);
    for edge in edges {
        words = joined(words, edge_words(alloc, truths, *edge)?)?;
    }
    Ok(words)
}

fn joined(
    mut words: Vector<Vector<GoalLetter>>,
    others: Vector<Vector<GoalLetter>>,
) -> Result<Vector<Vector<GoalLetter>>, Memory>
    ensures { IfOk result (λ all. all ≡ words ++ others) }
{
    for word in others.into_vec() {
        words.push(word)?;
    }
    Ok(words)
}

/// The words of a clause, in order. Nothing is made of a part without words, so no part has more words than the clause.
#[tactic(auto, unfolding(crate::specs::applied_clauses::Trees::tree_of))]
pub(crate) fn words(
    alloc: Global,
    tree: &AppliedTree,
    quotes: &[QuotedLetter],
) -> Result<Vector<Vector<GoalLetter>>, Memory>
    ensures { IfOk result (λ all. all ≡ words (texts (quotes_in quotes.now)) (tree_of tree.now)) }
{
    if word_count(tree) == 0 {
        return Ok(Vector::new(alloc));
    }
    match tree {
        AppliedTree::Nodes(nodes, predicates) => {
            let truths = truth_words(alloc, predicates)?;
            node_words(alloc, nodes.as_slice(), &truths)
        }
        AppliedTree::Edges(edges, predicates) => {
            let truths = truth_words(alloc, predicates)?;
            all_edge_words(alloc, &truths, edges.as_slice())
        }
        AppliedTree::Paths(paths) => path_words(alloc, paths),
        AppliedTree::Predicate(number) => single_word(alloc, GoalLetter::Predicate(*number)),
        AppliedTree::Quoted { text, .. } => quoted_words(alloc, quotes, text),
        AppliedTree::Dot(a, b) => {
            let firsts = words(alloc, a, quotes)?;
            let others = words(alloc, b, quotes)?;
            product(alloc, &firsts, &others)
        }
        AppliedTree::Plus(a, b) => {
            let firsts = words(alloc, a, quotes)?;
            let others = words(alloc, b, quotes)?;
            joined(firsts, others)
        }
        AppliedTree::Repeat { .. } => Ok(Vector::new(alloc)),
    }
}
