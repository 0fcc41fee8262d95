// The words of goals by place and by rank.
ghost use Rattle.std.specs.Prelude.{◌≡◌, slice_get};
ghost use Rattle.std.specs.Cmp.Lexicographic.{slice_cmp};
ghost use Rattle.std.specs.Ordering.{nat_cmp};
ghost use Rattle.measurer_index.specs.word_index.Order.{key_at, key_of, keys};
ghost use Rattle.measurer_index.specs.word_index.Walks.{word_at};

use crate::word_index::letters::key_of;
use goals::{Goal, GoalLetter};
use std::cmp::Ordering;

/// The word of the goal at a place, or the empty word where there is none.
pub(crate) fn word_at(goals: &[Goal], place: u32) -> &[GoalLetter]
    ensures { result.now ≡ word_at goals.now place }
{
    match goals.get(place as usize) {
        None => &[],
        Some(goal) => goal.word(),
    }
}

/// The number of the letter at a place of a word, or 0 past its end.
fn key_in(word: &[GoalLetter], at: usize) -> u64
    ensures { result ≡ key_of (slice_get word.now at) }
{
    key_of(word.get(at).copied())
}

/// The number of the letter at a depth of the word of a rank, or 0 where it ends before.
pub(crate) fn key_at(goals: &[Goal], order: &[u32], depth: usize, rank: usize) -> u64
    ensures { result ≡ key_at goals.now order.now depth rank }
{
    let place = order.get(rank).copied().unwrap_or(0);
    key_in(word_at(goals, place), depth)
}

/// How two words compare, letter by letter.
pub(crate) fn compared(a: &[GoalLetter], b: &[GoalLetter]) -> Ordering
    ensures { result ≡ slice_cmp nat_cmp (keys a.now) (keys b.now) }
{
    for at in 0..a.len() {
        let own = key_in(a, at);
        let other = key_in(b, at);
        if own < other {
            return Ordering::Less;
        }
        if other < own {
            return Ordering::Greater;
        }
    }
    if a.len() < b.len() {
        return Ordering::Less;
    }
    Ordering::Equal
}
