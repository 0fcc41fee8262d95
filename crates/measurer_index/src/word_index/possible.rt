// Words that begin with a predicate and may go along a path.
ghost use Rattle.std.specs.Prelude.{◌≡◌, ◌<◌, ℕ, IfOk, length, slice_index};
ghost use Rattle.std.specs.List.{list_all};
ghost use Rattle.measurer_index.specs.word_index.Tests.{AreBitsOf, AreTestsAlong, may_be_met, may_go};

use crate::word_index::tables::begins_with_step;
use crate::word_index::walk::has_bit;
use crate::word_index::words::word_at;
use fq_core::Memory;
use goals::{Goal, GoalLetter};
use measurer_hits::run_match::RunPath;
use std::alloc::Global;

/// The bits that are set in some mask.
fn set_somewhere(masks: &[u64]) -> u64
    ensures { (at : ℕ) → at < length masks.now → AreBitsOf (slice_index masks.now at) result }
{
    let mut somewhere = 0u64;
    for mask in masks {
        somewhere |= *mask;
    }
    somewhere
}

/// The bits that are set in each mask.
fn set_everywhere(masks: &[u64]) -> u64
    ensures { (at : ℕ) → at < length masks.now → AreBitsOf result (slice_index masks.now at) }
{
    let mut everywhere = u64::MAX;
    for mask in masks {
        everywhere &= *mask;
    }
    everywhere
}

/// Whether a letter may be met on a path that has the bits of the first mask at some state, and those of the second at each.
fn may_be_met(letter: GoalLetter, somewhere: u64, everywhere: u64) -> bool
    ensures { result ≡ may_be_met somewhere everywhere letter }
{
    match letter {
        GoalLetter::Predicate(number) => has_bit(somewhere, number),
        GoalLetter::Absent(number) => !has_bit(everywhere, number),
        _ => true,
    }
}

/// The same for all letters of a word.
fn all_may_be_met(word: &[GoalLetter], somewhere: u64, everywhere: u64) -> bool
    ensures { result ≡ list_all (may_be_met somewhere everywhere) word.now }
{
    word.iter()
        .all(|letter| may_be_met(*letter, somewhere, everywhere))
}

/// Whether a word begins with no edge and no node, and each of its letters may be met.
fn may_go(word: &[GoalLetter], somewhere: u64, everywhere: u64) -> bool
    ensures { result ≡ may_go somewhere everywhere word.now }
{
    !begins_with_step(word) && all_may_be_met(word, somewhere, everywhere)
}

/// Some of these places of goals, in their order, with all those whose words begin with a predicate or an absent one and go
/// along the path.
pub(crate) fn tests_along(
    alloc: Global,
    goals: &[Goal],
    order: &[u32],
    path: &RunPath,
) -> Result<Vec<u32>, Memory>
    ensures { IfOk result (λ places. AreTestsAlong goals.now path.now order.now places.items) }
{
    let somewhere = set_somewhere(path.masks());
    let everywhere = set_everywhere(path.masks());
    let mut places = Vec::from_slice(alloc, order)?;
    places.retain(|place| may_go(word_at(goals, *place), somewhere, everywhere));
    Ok(places)
}
