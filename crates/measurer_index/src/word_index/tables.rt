// The groups of words that begin alike.
ghost use Rattle.std.specs.Prelude.{◌≡◌, ◌≤◌, ℕ, List, IfOk, Some, slice_get};
ghost use Rattle.goals.specs.GoalForm.{GoalForm};
ghost use Rattle.measurer_index.specs.word_index.Groups.{IsGroup, IsNarrowed};
ghost use Rattle.measurer_index.specs.word_index.Tables.{AreBegun, BeginsBelow, all_begin_with_steps, begins_with_step, root, step};
ghost use Rattle.measurer_index.specs.word_index.Walks.{word_at};

use crate::word_index::group::Group;
use crate::word_index::ranges::narrowed;
use containers::Vector;
use fq_core::Memory;
use goals::{Goal, GoalLetter};
use std::alloc::Global;

/// The group of all words.
pub(crate) fn root(order: &[u32], absents: u32) -> Group
    ensures { result ≡ root order.now absents }
{
    Group {
        low: 0,
        high: order.len(),
        depth: 0,
        absents,
    }
}

/// An edge, or a node, of this number.
pub(crate) fn step(edges: bool, number: u32) -> GoalLetter
    ensures { result ≡ step edges number }
{
    if edges {
        GoalLetter::Edge(number)
    } else {
        GoalLetter::Node(number)
    }
}

/// The number of the edge, or of the node, with which a word begins, if it does.
fn first_number(word: &[GoalLetter], edges: bool) -> Option<u32>
    ensures { (n : ℕ) → slice_get word.now 0 ≡ Some (step edges n) → result ≡ Some n }
{
    match word.first() {
        Some(GoalLetter::Edge(edge)) if edges => Some(*edge),
        Some(GoalLetter::Node(node)) if !edges => Some(*node),
        _ => None,
    }
}

/// This number, or one above that of the edge, or the node, with which a word begins, if that isn't below this one.
fn first_above(word: &[GoalLetter], edges: bool, bound: u32) -> Result<u32, Memory>
    ensures from { IfOk result (λ above. bound ≤ above) }
    ensures first { IfOk result (λ above. BeginsBelow edges above word.now) }
{
    match first_number(word, edges) {
        None => Ok(bound),
        Some(number) => match number.checked_add(1) {
            Some(above) => Ok(bound.max(above)),
            None => Err(Memory),
        },
    }
}

/// A number above those of the edges, or the nodes, with which words begin.
fn size(goals: &[Goal], edges: bool) -> Result<u32, Memory>
    ensures { IfOk result (λ size. (g : ℕ) → BeginsBelow edges size (word_at goals.now g)) }
{
    let mut size = 0u32;
    for goal in goals {
        size = first_above(goal.word(), edges, size)?;
    }
    Ok(size)
}

/// By number, the groups of the words that begin with an edge, or a node.
pub(crate) fn begun(
    alloc: Global,
    goals: &[Goal],
    order: &[u32],
    absents: u32,
    edges: bool,
) -> Result<Vector<Group>, Memory>
    requires { IsGroup goals.now order.now (root order.now absents) }
    ensures { IfOk result (λ groups. AreBegun goals.now order.now absents edges groups) }
{
    let all = root(order, absents);
    let mut groups = Vector::new(alloc);
    for number in 0..size(goals, edges)? {
        let group = narrowed(goals, order, all, step(edges, number))?;
        groups.push(group)?;
    }
    Ok(groups)
}

/// The group of the words that begin with this edge, or node. None does behind the end of the table.
pub(crate) fn begun_with(
    order: &[u32],
    absents: u32,
    groups: &Vector<Group>,
    edges: bool,
    number: u32,
) -> Group
    ensures { (goals : List GoalForm) → AreBegun goals order.now absents edges groups.now → IsNarrowed goals order.now (step edges number) (root order.now absents) result }
{
    match groups.get(number as usize) {
        Some(group) => *group,
        None => Group {
            low: 0,
            high: 0,
            depth: 1,
            absents,
        },
    }
}

/// Whether a word is empty, or begins with an edge or a node.
pub(crate) fn begins_with_step(word: &[GoalLetter]) -> bool
    ensures { result ≡ begins_with_step (slice_get word.now 0) }
{
    match word.first() {
        None | Some(GoalLetter::Edge(_)) | Some(GoalLetter::Node(_)) => true,
        Some(GoalLetter::Predicate(_))
        | Some(GoalLetter::Absent(_))
        | Some(GoalLetter::Quoted(_)) => false,
    }
}

/// The same for the words of all goals.
pub(crate) fn all_begin_with_steps(goals: &[Goal]) -> bool
    ensures { result ≡ all_begin_with_steps goals.now }
{
    goals.iter().all(|goal| begins_with_step(goal.word()))
}
