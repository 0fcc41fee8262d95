// The index.
ghost use Rattle.std.specs.Prelude.{◌≡◌, ◌≤◌, ◌<◌, ◌+◌, ℕ, true, false, All, IfOk, OnOk, length, if◌then◌else◌};
ghost use Rattle.std.specs.List.{Contains};
ghost use Rattle.measurer_index.specs.word_index.Numbers.{Adds};
ghost use Rattle.measurer_index.specs.word_index.Order.{AreAbsentsBelow, IsOrderOf};
ghost use Rattle.measurer_index.specs.word_index.Groups.{Continues, IsAny, IsGroup, IsNarrowed, IsTest, Started};
ghost use Rattle.measurer_index.specs.word_index.Tables.{IsIndexOf, IsStep, root, step};
ghost use Rattle.measurer_index.specs.declared.word_index.group.Group.{Group as OneGroup};
ghost use Rattle.measurer_index.specs.word_index.Walks.{HasGoalWalk, is_plain, word_at};

use crate::word_index::group::Group;
use crate::word_index::letters::{absents_above, is_plain};
use crate::word_index::numbers::Numbers;
use crate::word_index::places::step_places;
use crate::word_index::possible::tests_along;
use crate::word_index::tables::{all_begin_with_steps, begun, begun_with, root};
use crate::word_index::walk::{
    add_walks, add_with_absents, add_with_predicates, edge_at, mask_at, node_at,
};
use crate::word_index::words::{compared, word_at};
use containers::Vector;
use fq_core::Memory;
use goals::Goal;
use measurer_hits::run_match::RunPath;
use std::alloc::Global;

/// The goals of a list whose words have letters, and no quoted ones, sorted by their words.
#[derive(Debug, Drop)]
pub struct WordIndex {
    order: Vector<u32>,
    /// A number above those of the absent predicates of the words.
    absents: u32,
    /// By edge, the words that begin with it.
    by_edge: Vector<Group>,
    /// By node, the words that begin with it.
    by_node: Vector<Group>,
    /// Each word begins with an edge or a node.
    only_steps: bool,
}

impl WordIndex {
    /// The index of these goals.
    pub fn new(alloc: Global, goals: &[Goal]) -> Result<WordIndex, Memory>
        ensures { IfOk result (λ index. IsIndexOf goals.now index) }
    {
        let order = Vector::from_vec(sorted_places(alloc, goals)?);
        let absents = absents_of(goals)?;
        let by_edge = begun(alloc, goals, &order, absents, true)?;
        let by_node = begun(alloc, goals, &order, absents, false)?;
        let only_steps = all_begin_with_steps(goals);
        Ok(WordIndex {
            order,
            absents,
            by_edge,
            by_node,
            only_steps,
        })
    }

    /// Adds the numbers, from 1, of the goals of the index whose words go along the path.
    pub fn add_walks(
        &self,
        goals: &[Goal],
        path: &RunPath,
        first: bool,
        last: bool,
        numbers: &mut Numbers,
    ) -> Result<(), Memory>
        requires { IsIndexOf goals.now self.now }
        ensures { OnOk result (Adds (HasGoalWalk goals.now first last path.now) numbers.old numbers.new) }
    {
        if first {
            return self.add_from(goals, path, last, 0, numbers);
        }
        self.add_steps(goals, path, last, false, numbers)?;
        self.add_steps(goals, path, last, true, numbers)?;
        self.add_all_tests(goals, path, last, numbers)
    }

    /// Adds the goals whose words begin with an edge, or a node, of the path and go on from there.
    fn add_steps(
        &self,
        goals: &[Goal],
        path: &RunPath,
        last: bool,
        edges: bool,
        numbers: &mut Numbers,
    ) -> Result<(), Memory>
        requires { IsIndexOf goals.now self.now }
        ensures { OnOk result (Adds (Started goals.now self.now.order path.now last (IsStep edges) (root self.now.order self.now.absents) (length path.now.edges + 1)) numbers.old numbers.new) }
    {
        let alloc = self.order.allocator();
        let groups = self.table(edges);
        let places = step_places(alloc, goals, &self.order, groups, path, last, edges)?;
        for at in &places {
            self.add_step(goals, path, last, edges, *at, numbers)?;
        }
        Ok(())
    }

    /// The table of the words that begin with an edge, or with a node.
    fn table(&self, edges: bool) -> &Vector<Group>
        ensures { result.now ≡ (if edges then self.now.by_edge else self.now.by_node) }
    {
        if edges { &self.by_edge } else { &self.by_node }
    }

    /// Adds the goals whose words begin with this edge, or node, and go on behind it from this state.
    fn add_begun(
        &self,
        goals: &[Goal],
        path: &RunPath,
        last: bool,
        edges: bool,
        number: u32,
        at: usize,
        numbers: &mut Numbers,
    ) -> Result<(), Memory>
        requires index { IsIndexOf goals.now self.now }
        requires at { at ≤ length path.now.edges }
        ensures { OnOk result ((narrow : OneGroup) × (IsNarrowed goals.now self.now.order (step edges number) (root self.now.order self.now.absents) narrow × Adds (Continues goals.now self.now.order path.now last IsAny narrow at) numbers.old numbers.new)) }
    {
        let groups = self.table(edges);
        let group = begun_with(&self.order, self.absents, groups, edges, number);
        add_walks(goals, &self.order, path, last, group, at, numbers)
    }

    /// Adds the goals whose words go on from this state with the edge out of it, or with its node.
    fn add_step(
        &self,
        goals: &[Goal],
        path: &RunPath,
        last: bool,
        edges: bool,
        at: usize,
        numbers: &mut Numbers,
    ) -> Result<(), Memory>
        requires index { IsIndexOf goals.now self.now }
        requires at { at ≤ length path.now.edges }
        ensures { OnOk result (Adds (Continues goals.now self.now.order path.now last (IsStep edges) (root self.now.order self.now.absents) at) numbers.old numbers.new) }
    {
        if edges {
            self.add_edge(goals, path, last, at, numbers)
        } else {
            self.add_node(goals, path, last, at, numbers)
        }
    }

    /// Adds the goals whose words go on from this state with its node.
    fn add_node(
        &self,
        goals: &[Goal],
        path: &RunPath,
        last: bool,
        at: usize,
        numbers: &mut Numbers,
    ) -> Result<(), Memory>
        requires index { IsIndexOf goals.now self.now }
        requires at { at ≤ length path.now.edges }
        ensures { OnOk result (Adds (Continues goals.now self.now.order path.now last (IsStep false) (root self.now.order self.now.absents) at) numbers.old numbers.new) }
    {
        let node = node_at(path, at);
        self.add_begun(goals, path, last, false, node, at, numbers)
    }

    /// Adds the goals whose words go on from this state with the edge out of it.
    fn add_edge(
        &self,
        goals: &[Goal],
        path: &RunPath,
        last: bool,
        at: usize,
        numbers: &mut Numbers,
    ) -> Result<(), Memory>
        requires { IsIndexOf goals.now self.now }
        ensures { OnOk result (Adds (Continues goals.now self.now.order path.now last (IsStep true) (root self.now.order self.now.absents) at) numbers.old numbers.new) }
    {
        if at >= path.edges().len() {
            return Ok(());
        }
        let edge = edge_at(path, at);
        self.add_begun(goals, path, last, true, edge, at + 1, numbers)
    }

    /// Adds the goals whose words begin with a predicate or an absent one and go on from some state.
    fn add_all_tests(
        &self,
        goals: &[Goal],
        path: &RunPath,
        last: bool,
        numbers: &mut Numbers,
    ) -> Result<(), Memory>
        requires { IsIndexOf goals.now self.now }
        ensures { OnOk result (Adds (Started goals.now self.now.order path.now last IsTest (root self.now.order self.now.absents) (length path.now.edges + 1)) numbers.old numbers.new) }
    {
        if self.only_steps {
            return Ok(());
        }
        let places = tests_along(self.order.allocator(), goals, &self.order, path)?;
        let order = places.as_slice();
        if order.is_empty() {
            return Ok(());
        }
        for at in 0..path.nodes().len() {
            add_tests(goals, order, self.absents, path, last, at, numbers)?;
        }
        Ok(())
    }

    /// Adds the goals whose words go on from this state to one at which a walk may end.
    fn add_from(
        &self,
        goals: &[Goal],
        path: &RunPath,
        last: bool,
        at: usize,
        numbers: &mut Numbers,
    ) -> Result<(), Memory>
        requires index { IsIndexOf goals.now self.now }
        requires at { at ≤ length path.now.edges }
        ensures { OnOk result (Adds (Continues goals.now self.now.order path.now last IsAny (root self.now.order self.now.absents) at) numbers.old numbers.new) }
    {
        self.add_node(goals, path, last, at, numbers)?;
        self.add_edge(goals, path, last, at, numbers)?;
        if self.only_steps {
            return Ok(());
        }
        let order = self.order.as_slice();
        add_tests(goals, order, self.absents, path, last, at, numbers)
    }
}

/// Adds the goals of these places whose words go on from this state with a predicate that holds there, or an absent one.
fn add_tests(
    goals: &[Goal],
    order: &[u32],
    absents: u32,
    path: &RunPath,
    last: bool,
    at: usize,
    numbers: &mut Numbers,
) -> Result<(), Memory>
    requires group { IsGroup goals.now order.now (root order.now absents) }
    requires at { at ≤ length path.now.edges }
    ensures { OnOk result (Adds (Continues goals.now order.now path.now last IsTest (root order.now absents) at) numbers.old numbers.new) }
{
    let all = root(order, absents);
    let _mask = mask_at(path, at);
    add_with_predicates(goals, order, path, last, all, at, numbers)?;
    add_with_absents(goals, order, path, last, all, at, numbers)
}

/// A number above those of the absent predicates of the goals' words.
fn absents_of(goals: &[Goal]) -> Result<u32, Memory>
    ensures { IfOk result (λ bound. AreAbsentsBelow goals.now bound) }
{
    let mut bound = 0u32;
    for goal in goals {
        bound = absents_above(goal.word(), bound)?;
    }
    Ok(bound)
}

/// The places of the goals whose words have letters, and no quoted ones.
fn plain_places(alloc: Global, goals: &[Goal]) -> Result<Vec<u32>, Memory>
    ensures plain { IfOk result (λ places. All (λ p. is_plain (word_at goals.now p) ≡ true) places.items) }
    ensures every { IfOk result (λ places. (p : ℕ) → is_plain (word_at goals.now p) ≡ true → Contains places.items p) }
{
    let mut places = Vec::new(alloc);
    for place in 0..goals.len() {
        if is_plain(goals[place].word()) {
            if place > u32::MAX as usize {
                return Err(Memory);
            }
            places.push(place as u32)?;
        }
    }
    Ok(places)
}

/// The same, by the order of the words.
fn sorted_places(alloc: Global, goals: &[Goal]) -> Result<Vec<u32>, Memory>
    ensures { IfOk result (λ places. IsOrderOf goals.now places.items) }
{
    let mut places = plain_places(alloc, goals)?;
    places.sort_unstable_by(|a, b| compared(word_at(goals, *a), word_at(goals, *b)));
    Ok(places)
}
