// Walks of sorted words along a path.
ghost use Rattle.std.specs.Prelude.{◌≡◌, ◌==◌, ◌^◌, ℕ, List, ◌<◌, ◌≤◌, length, OnOk, slice_index, suc, true, false, IfOk, ◌+◌};
ghost use Rattle.std.specs.Int.{bit_at};
ghost use Rattle.goals.specs.GoalForm.{GoalForm};
ghost use Rattle.patterns.specs.Paths.{IsPath};
ghost use Rattle.measurer_index.specs.word_index.Groups.{Continues, IsAbsentBelow, IsAny, IsEnd, IsGroup, IsLetter, IsPastEnds, IsPredicateBelow, IsStaying};
ghost use Rattle.measurer_index.specs.word_index.Numbers.{Adds};
ghost use Rattle.measurer_index.specs.word_index.Tables.{steps};
ghost use Rattle.measurer_index.specs.word_index.Walks.{Goes};

use crate::word_index::group::Group;
use crate::word_index::numbers::Numbers;
use crate::word_index::ranges::{narrowed, past_ends};
use fq_core::Memory;
use goals::{Goal, GoalLetter};
use measurer_hits::run_match::RunPath;

/// The number, from 1, of the goal of a rank.
fn number_at(order: &[u32], rank: usize) -> Result<u32, Memory>
    ensures { IfOk result (λ number. number ≡ slice_index order.now rank + 1) }
{
    match order.get(rank).copied().unwrap_or(0).checked_add(1) {
        Some(number) => Ok(number),
        None => Err(Memory),
    }
}

/// Adds the numbers of the goals of these ranks.
fn add_ranks(order: &[u32], low: usize, high: usize, numbers: &mut Numbers) -> Result<(), Memory>
    requires { low ≤ high }
    ensures { OnOk result (Adds (λ n. (r : ℕ) × ((low ≤ r) × ((r < high) × (n ≡ suc (slice_index order.now r))))) numbers.old numbers.new) }
{
    for rank in low..high {
        let number = number_at(order, rank)?;
        numbers.add(number)?;
    }
    Ok(())
}

/// Whether a walk may end at a state.
fn may_end(path: &RunPath, last: bool, at: usize) -> bool
    ensures yes { result ≡ true → last ≡ true → at ≡ length path.now.edges }
    ensures no { result ≡ false → (last ≡ true) × (¬ (at ≡ length path.now.edges)) }
{
    !last || at == path.edges().len()
}

/// Adds the goals of a group whose words end at its depth, which are those up to the rest, if a walk may end at this state.
fn add_ends(
    order: &[u32],
    path: &RunPath,
    last: bool,
    group: Group,
    rest: Group,
    at: usize,
    numbers: &mut Numbers,
) -> Result<(), Memory>
    requires range { group.low ≤ rest.low }
    requires at { at ≤ length path.now.edges }
    ensures { (goals : List GoalForm) → IsPastEnds goals order.now group rest → OnOk result (Adds (Continues goals order.now path.now last IsEnd group at) numbers.old numbers.new) }
{
    if may_end(path, last, at) {
        add_ranks(order, group.low, rest.low, numbers)?;
    }
    Ok(())
}

/// Adds the goals of a group whose words go on with a letter that stays at this state, and then go on.
#[cycle(walk)]
fn add_with(
    goals: &[Goal],
    order: &[u32],
    path: &RunPath,
    last: bool,
    group: Group,
    at: usize,
    letter: GoalLetter,
    numbers: &mut Numbers,
) -> Result<(), Memory>
    requires group { IsGroup goals.now order.now group }
    requires at { at ≤ length path.now.edges }
    requires stays { Goes path.now letter at at }
    ensures { OnOk result (Adds (Continues goals.now order.now path.now last (IsLetter letter) group at) numbers.old numbers.new) }
{
    let narrow = narrowed(goals, order, group, letter)?;
    if narrow.low < narrow.high {
        add_walks(goals, order, path, last, narrow, at, numbers)?;
    }
    Ok(())
}

/// The node of a state.
pub(crate) fn node_at(path: &RunPath, at: usize) -> u32
    ensures { result ≡ slice_index path.now.nodes at }
{
    path.nodes().get(at).copied().unwrap_or(0)
}

/// The edge out of a state.
pub(crate) fn edge_at(path: &RunPath, at: usize) -> u32
    ensures { result ≡ slice_index path.now.edges at }
{
    path.edges().get(at).copied().unwrap_or(0)
}

/// The edges, or the nodes, of a path.
pub(crate) fn steps<'a>(path: &'a RunPath, edges: bool) -> &'a [u32]
    ensures steps { result.now ≡ steps edges path.now }
    ensures path { IsPath path.now }
{
    if edges { path.edges() } else { path.nodes() }
}

/// The letter of the node of a state.
fn node_letter(path: &RunPath, at: usize) -> GoalLetter
    ensures { result ≡ GoalLetter.Node (slice_index path.now.nodes at) }
{
    GoalLetter::Node(node_at(path, at))
}

/// The letter of the edge out of a state.
fn edge_letter(path: &RunPath, at: usize) -> GoalLetter
    ensures { result ≡ GoalLetter.Edge (slice_index path.now.edges at) }
{
    GoalLetter::Edge(edge_at(path, at))
}

/// Which predicates hold at a state.
pub(crate) fn mask_at(path: &RunPath, at: usize) -> u64
    ensures mask { result ≡ slice_index path.now.masks at }
    ensures small { result < 2 ^ 64 }
{
    path.masks().get(at).copied().unwrap_or(0)
}

/// Whether a bit, counted from the lowest, is set. There is none past the highest.
#[tactic(auto, using(patterns::proofs::Members::no_bit, std::proofs::lemmas::Nat::Bits::shr_and_one))]
pub(crate) fn has_bit(mask: u64, bit: u32) -> bool
    ensures { result ≡ (bit_at mask bit == 1) }
{
    bit < 64 && (mask >> bit) & 1 == 1
}

/// Adds the goals of a group whose words go on with a predicate that holds at this state, and then go on.
#[cycle(walk)]
fn add_with_predicate(
    goals: &[Goal],
    order: &[u32],
    path: &RunPath,
    last: bool,
    group: Group,
    at: usize,
    number: u32,
    numbers: &mut Numbers,
) -> Result<(), Memory>
    requires group { IsGroup goals.now order.now group }
    requires at { at ≤ length path.now.edges }
    ensures { OnOk result (Adds (Continues goals.now order.now path.now last (IsLetter (GoalLetter.Predicate number)) group at) numbers.old numbers.new) }
{
    if !has_bit(mask_at(path, at), number) {
        return Ok(());
    }
    let letter = GoalLetter::Predicate(number);
    add_with(goals, order, path, last, group, at, letter, numbers)
}

/// The same for all predicates.
#[cycle(walk)]
pub(crate) fn add_with_predicates(
    goals: &[Goal],
    order: &[u32],
    path: &RunPath,
    last: bool,
    group: Group,
    at: usize,
    numbers: &mut Numbers,
) -> Result<(), Memory>
    requires group { IsGroup goals.now order.now group }
    requires at { at ≤ length path.now.edges }
    ensures { OnOk result (Adds (Continues goals.now order.now path.now last (IsPredicateBelow 64) group at) numbers.old numbers.new) }
{
    if mask_at(path, at) == 0 {
        return Ok(());
    }
    for number in 0..64u32 {
        add_with_predicate(goals, order, path, last, group, at, number, numbers)?;
    }
    Ok(())
}

/// Adds the goals of a group whose words go on with an absent predicate, which doesn't hold at this state, and then go on.
#[cycle(walk)]
fn add_with_absent(
    goals: &[Goal],
    order: &[u32],
    path: &RunPath,
    last: bool,
    group: Group,
    at: usize,
    number: u32,
    numbers: &mut Numbers,
) -> Result<(), Memory>
    requires group { IsGroup goals.now order.now group }
    requires at { at ≤ length path.now.edges }
    ensures { OnOk result (Adds (Continues goals.now order.now path.now last (IsLetter (GoalLetter.Absent number)) group at) numbers.old numbers.new) }
{
    if has_bit(mask_at(path, at), number) {
        return Ok(());
    }
    let letter = GoalLetter::Absent(number);
    add_with(goals, order, path, last, group, at, letter, numbers)
}

/// The same for all absent predicates.
#[cycle(walk)]
pub(crate) fn add_with_absents(
    goals: &[Goal],
    order: &[u32],
    path: &RunPath,
    last: bool,
    group: Group,
    at: usize,
    numbers: &mut Numbers,
) -> Result<(), Memory>
    requires group { IsGroup goals.now order.now group }
    requires at { at ≤ length path.now.edges }
    ensures { OnOk result (Adds (Continues goals.now order.now path.now last (IsAbsentBelow group.absents) group at) numbers.old numbers.new) }
{
    for number in 0..group.absents {
        add_with_absent(goals, order, path, last, group, at, number, numbers)?;
    }
    Ok(())
}

/// Adds the goals of a group whose words go on with a letter that stays at this state.
#[cycle(walk)]
fn add_staying(
    goals: &[Goal],
    order: &[u32],
    path: &RunPath,
    last: bool,
    group: Group,
    at: usize,
    numbers: &mut Numbers,
) -> Result<(), Memory>
    requires group { IsGroup goals.now order.now group }
    requires at { at ≤ length path.now.edges }
    ensures { OnOk result (Adds (Continues goals.now order.now path.now last IsStaying group at) numbers.old numbers.new) }
{
    if group.low >= group.high {
        return Ok(());
    }
    let node = node_letter(path, at);
    add_with(goals, order, path, last, group, at, node, numbers)?;
    let _mask = mask_at(path, at);
    add_with_predicates(goals, order, path, last, group, at, numbers)?;
    add_with_absents(goals, order, path, last, group, at, numbers)
}

/// Adds the goals of a group whose words go on from this state to one at which a walk may end.
#[cycle(walk)]
pub(crate) fn add_walks(
    goals: &[Goal],
    order: &[u32],
    path: &RunPath,
    last: bool,
    group: Group,
    at: usize,
    numbers: &mut Numbers,
) -> Result<(), Memory>
    requires group { IsGroup goals.now order.now group }
    requires at { at ≤ length path.now.edges }
    ensures { OnOk result (Adds (Continues goals.now order.now path.now last IsAny group at) numbers.old numbers.new) }
{
    let mut group = group;
    let mut at = at;
    while group.low < group.high {
        let rest = past_ends(goals, order, group);
        add_ends(order, path, last, group, rest, at, numbers)?;
        add_staying(goals, order, path, last, rest, at, numbers)?;
        if at >= path.edges().len() {
            return Ok(());
        }
        let edge = edge_letter(path, at);
        group = narrowed(goals, order, rest, edge)?;
        at += 1;
    }
    Ok(())
}
