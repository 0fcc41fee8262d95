// Ranges of ranks whose words go on alike.
ghost use Rattle.std.specs.Prelude.{◌≡◌, ℕ, ◌+◌, ◌≤◌, ◌<◌, length, IfOk, IfSome, true};
ghost use Rattle.measurer_index.specs.word_index.Groups.{IsEnded, IsGroup, IsNarrowed, IsPastEnds};
ghost use Rattle.measurer_index.specs.word_index.Order.{key_at};

use crate::word_index::group::Group;
use crate::word_index::letters::letter_key;
use crate::word_index::words::key_at;
use fq_core::Memory;
use goals::{Goal, GoalLetter};

/// The first rank of a group where the letter at its depth has this number or a greater one, or its end.
pub(crate) fn first_from(goals: &[Goal], order: &[u32], group: Group, key: u64) -> usize
    requires { IsGroup goals.now order.now group }
    ensures from { group.low ≤ result }
    ensures to { result ≤ group.high }
    ensures below { (r : ℕ) → group.low ≤ r → r < result → key_at goals.now order.now group.depth r < key }
    ensures above { (r : ℕ) → result ≤ r → r < group.high → key ≤ key_at goals.now order.now group.depth r }
{
    let mut from = group.low;
    let mut to = group.high;
    while from < to {
        let middle = halfway(from, to);
        if key_at(goals, order, group.depth, middle) < key {
            from = middle + 1;
        } else {
            to = middle;
        }
    }
    from
}

/// A number in the middle of a range.
fn halfway(from: usize, to: usize) -> usize
    requires { from < to }
    ensures from { from ≤ result }
    ensures to { result < to }
{
    from + (to - from) / 2
}

/// The group of those words that go on with this letter, past it.
pub(crate) fn narrowed(
    goals: &[Goal],
    order: &[u32],
    group: Group,
    letter: GoalLetter,
) -> Result<Group, Memory>
    requires { IsGroup goals.now order.now group }
    ensures { IfOk result (λ narrow. IsNarrowed goals.now order.now letter group narrow) }
{
    let key = letter_key(letter);
    let low = first_from(goals, order, group, key);
    let high = first_from(goals, order, group, key + 1);
    if group.depth == usize::MAX {
        return Err(Memory);
    }
    Ok(Group {
        low,
        high,
        depth: group.depth + 1,
        absents: group.absents,
    })
}

/// The group of those words that go on, past those which end at its depth.
pub(crate) fn past_ends(goals: &[Goal], order: &[u32], group: Group) -> Group
    requires { IsGroup goals.now order.now group }
    ensures { IsPastEnds goals.now order.now group result }
{
    Group {
        low: first_from(goals, order, group, 1),
        high: group.high,
        depth: group.depth,
        absents: group.absents,
    }
}

/// Whether all words of a group end at its depth.
pub(crate) fn all_end(goals: &[Goal], order: &[u32], group: Group) -> bool
    ensures { result ≡ true → IsGroup goals.now order.now group → IsEnded goals.now order.now group }
{
    group.low >= group.high || key_at(goals, order, group.depth, group.high - 1) == 0
}
