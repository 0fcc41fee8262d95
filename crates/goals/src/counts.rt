// Counts of words and letters, of which nothing has to be listed.
ghost use Rattle.std.specs.Prelude.{◌≡◌, ◌+◌, ◌-◌, ◌*◌, ◌^◌, min, length, map};
ghost use Rattle.goals.specs.applied_clauses.Trees.{tree_of};
ghost use Rattle.goals.specs.Counts.{greatest, joined_letters, longest, one_of, quote_letters, tree_letters, truth_count, word_count};
ghost use Rattle.goals.specs.Quotes.{quotes_in};
ghost use Rattle.filters_paths.specs.Outcome.{edge_count};
ghost use Rattle.patterns.specs.Letters.{times};

use crate::applied_clauses::AppliedTree;
use crate::quotes::{QuotedLetter, number_of};
use containers::Vector;
use fq_core::Name;

/// How many edges these paths have, or the greatest u64 where there are more.
fn edge_count(paths: &[Vector<u32>]) -> u64
    ensures { result ≡ min (edge_count paths.now) (2 ^ 64 - 1) }
{
    let mut count = 0u64;
    for path in paths {
        count = count.saturating_add(path.len() as u64);
    }
    count
}

/// How many edges the longest of these paths has.
#[tactic(auto, using(crate::proofs::Counted::greatest_more))]
fn longest_path(paths: &[Vector<u32>]) -> u64
    ensures { result ≡ greatest (map length paths.now) }
{
    let mut most = 0u64;
    for path in paths {
        most = most.max(path.len() as u64);
    }
    most
}

fn times(least: u32, most: Option<u32>) -> u64
    ensures { result ≡ times least most }
{
    match most {
        Some(most) => most as u64,
        None => least as u64 + 1,
    }
}

/// How many letters a clause has as a pattern, repetitions unrolled, or the greatest u64 where there are more.
#[tactic(auto, using(patterns::proofs::Capped::counted), unfolding(crate::specs::applied_clauses::Trees::tree_of))]
pub(crate) fn tree_letters(tree: &AppliedTree) -> u64
    ensures { result ≡ min (tree_letters (tree_of tree.now)) (2 ^ 64 - 1) }
{
    match tree {
        AppliedTree::Nodes(_, _) | AppliedTree::Edges(_, _) | AppliedTree::Predicate(_) => 1,
        AppliedTree::Paths(paths) => edge_count(paths),
        AppliedTree::Quoted { body, .. } => tree_letters(body),
        AppliedTree::Dot(a, b) | AppliedTree::Plus(a, b) => {
            tree_letters(a).saturating_add(tree_letters(b))
        }
        AppliedTree::Repeat { body, least, most } => {
            tree_letters(body).saturating_mul(times(*least, *most))
        }
    }
}

/// How many truth words these predicates have, or the greatest u64 where there are more.
#[tactic(auto, using(patterns::proofs::Capped::counted))]
fn truth_count(predicates: &[u32]) -> u64
    ensures { result ≡ min (truth_count predicates.now) (2 ^ 64 - 1) }
{
    match predicates {
        [] => 1,
        [_, rest @ ..] => truth_count(rest).saturating_mul(2),
    }
}

/// How many words these edges have between two truth words, or the greatest u64 where there are more.
#[tactic(auto, using(crate::proofs::Capped::capped_product, crate::proofs::Capped::capped_right))]
fn edge_word_count(edges: &[u32], predicates: &[u32]) -> u64
    ensures { result ≡ min (length edges.now * (truth_count predicates.now * truth_count predicates.now)) (2 ^ 64 - 1) }
{
    let truths = truth_count(predicates);
    (edges.len() as u64).saturating_mul(truths.saturating_mul(truths))
}

/// How many words these nodes have before a truth word, or the greatest u64 where there are more.
#[tactic(auto, using(crate::proofs::Capped::capped_right))]
fn node_word_count(nodes: &[u32], predicates: &[u32]) -> u64
    ensures { result ≡ min (length nodes.now * truth_count predicates.now) (2 ^ 64 - 1) }
{
    (nodes.len() as u64).saturating_mul(truth_count(predicates))
}

/// How many words a clause has, or the greatest u64 where there are more.
#[tactic(auto, using(patterns::proofs::Capped::counted, crate::proofs::Capped::capped_product), unfolding(crate::specs::applied_clauses::Trees::tree_of))]
pub(crate) fn word_count(tree: &AppliedTree) -> u64
    ensures { result ≡ min (word_count (tree_of tree.now)) (2 ^ 64 - 1) }
{
    match tree {
        AppliedTree::Nodes(nodes, predicates) => node_word_count(nodes.as_slice(), predicates),
        AppliedTree::Edges(edges, predicates) => edge_word_count(edges.as_slice(), predicates),
        AppliedTree::Paths(paths) => paths.len() as u64,
        AppliedTree::Predicate(_) | AppliedTree::Quoted { .. } => 1,
        AppliedTree::Dot(a, b) => word_count(a).saturating_mul(word_count(b)),
        AppliedTree::Plus(a, b) => word_count(a).saturating_add(word_count(b)),
        AppliedTree::Repeat { .. } => 0,
    }
}

fn one_of(numbers: &[u32], count: u64) -> u64
    ensures { result ≡ one_of numbers.now count }
{
    match numbers {
        [] => 0,
        [_first, _rest @ ..] => count,
    }
}

/// How many letters a node has with a truth word, if there is a node, or the greatest u64 where there are more.
#[tactic(auto, using(crate::proofs::Capped::capped_one))]
fn node_letters(nodes: &[u32], predicates: &[u32]) -> u64
    ensures { result ≡ min (one_of nodes.now (length predicates.now + 1)) (2 ^ 64 - 1) }
{
    one_of(nodes, (predicates.len() as u64).saturating_add(1))
}

/// How many letters an edge has with two truth words, if there is an edge, or the greatest u64 where there are more.
#[tactic(auto, using(crate::proofs::Capped::capped_one, crate::proofs::Capped::capped_more))]
fn edge_letters(edges: &[u32], predicates: &[u32]) -> u64
    ensures { result ≡ min (one_of edges.now (2 * length predicates.now + 1)) (2 ^ 64 - 1) }
{
    let truths = (predicates.len() as u64).saturating_mul(2);
    one_of(edges, truths.saturating_add(1))
}

fn quote_letters(quotes: &[QuotedLetter], text: &Name) -> u64
    ensures { result ≡ min (quote_letters (quotes_in quotes.now) text.now) (2 ^ 64 - 1) }
{
    match quotes.get(number_of(quotes, text)) {
        None => 0,
        Some(quote) => tree_letters(quote.body),
    }
}

/// The greatest number of letters of the pattern of a word of a clause, or the greatest u64 where it is more.
#[tactic(auto, using(patterns::proofs::Capped::counted), unfolding(crate::specs::applied_clauses::Trees::tree_of))]
pub(crate) fn longest(tree: &AppliedTree, quotes: &[QuotedLetter]) -> u64
    ensures { result ≡ min (longest (quotes_in quotes.now) (tree_of tree.now)) (2 ^ 64 - 1) }
{
    match tree {
        AppliedTree::Nodes(nodes, predicates) => node_letters(nodes.as_slice(), predicates),
        AppliedTree::Edges(edges, predicates) => edge_letters(edges.as_slice(), predicates),
        AppliedTree::Paths(paths) => longest_path(paths),
        AppliedTree::Predicate(_) => 1,
        AppliedTree::Quoted { text, .. } => quote_letters(quotes, text),
        AppliedTree::Dot(a, b) => {
            if word_count(a) == 0 || word_count(b) == 0 {
                0
            } else {
                longest(a, quotes).saturating_add(longest(b, quotes))
            }
        }
        AppliedTree::Plus(a, b) => longest(a, quotes).max(longest(b, quotes)),
        AppliedTree::Repeat { .. } => 0,
    }
}
