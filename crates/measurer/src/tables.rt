// What is made of a plan once.
ghost use Rattle.std.specs.Prelude.{◌≡◌, ◌+◌, ℕ, Some, Option, IfOk, IfSome, length, slice_get};
ghost use Rattle.patterns.specs.Letters.{form};
ghost use Rattle.automata.specs.Standing.{IsOf};
ghost use Rattle.goals.specs.GoalForm.{GoalForm, HasItsPattern};
ghost use Rattle.measurer.specs.Measured.{AreMatchers, IsFor, IsMatcherOf, IsPassingAutomaton};
ghost use Rattle.measurer.specs.Openings.{IsOpening};

use crate::openings::opening_of;
use automata::{Nfa, build};
use containers::Vector;
use fq_core::Memory;
use goals::{Goal, PassingPattern, Plan};
use measurer_index::gap_words::{GapSets, GapWord};
use measurer_index::word_index::{WordIndex, is_plain};
use patterns::{Letter, Pattern};
use std::alloc::Global;

/// What tells the matches of a pattern.
#[derive(Debug, Drop)]
pub enum Matcher {
    /// The row of letters and gaps that it is.
    Gaps(GapWord),
    /// Its automaton, and the edge that each match takes first, where that is known and matches may begin anywhere.
    Automaton {
        opening: Option<u32>,
        automaton: Nfa<Letter>,
    },
}

/// What tells the matches of a goal, with the goal's number, from 1.
#[derive(Debug, Drop)]
pub struct GoalMatcher {
    pub(crate) number: u32,
    pub(crate) matcher: Matcher,
}

/// An index of the goals whose words have no quoted letter, what tells the matches of the other goals, with the sets of edges
/// that their gaps go over, and the automaton of the passing clause.
#[derive(Debug, Drop)]
pub struct Tables {
    pub(crate) index: WordIndex,
    pub(crate) sets: GapSets,
    pub(crate) matchers: Vector<GoalMatcher>,
    pub(crate) passing: Option<Nfa<Letter>>,
}

/// The tables of a plan.
pub(crate) fn tables_of(alloc: Global, plan: &Plan) -> Result<Tables, Memory>
    ensures { IfOk result (λ tables. IsFor plan.now tables) }
{
    patterns_are_of_words(&plan.goals);
    let sets = gap_sets_of(alloc, &plan.goals)?;
    let matchers = matchers_of(alloc, &plan.goals, &sets, plan.first, plan.last)?;
    Ok(Tables {
        index: WordIndex::new(alloc, &plan.goals)?,
        sets,
        matchers,
        passing: passing_automaton(alloc, &plan.passing)?,
    })
}

/// A law: the pattern of each goal is that of its word.
fn patterns_are_of_words(goals: &[Goal])
    ensures { (place : ℕ) (goal : GoalForm) → slice_get goals.now place ≡ Some goal → HasItsPattern goal }
{
    for goal in goals {
        goal.pattern_is_of_word();
    }
}

/// The automaton of a pattern.
fn automaton_of(
    alloc: Global,
    pattern: &Pattern<Letter>,
    first: bool,
    last: bool,
) -> Result<Nfa<Letter>, Memory>
    ensures { IfOk result (λ automaton. IsOf automaton (form pattern.now) first last) }
{
    match build(alloc, pattern, first, last) {
        Ok(automaton) => Ok(automaton),
        Err(_) => Err(Memory),
    }
}

/// The automaton of the passing clause, if there is one.
fn passing_automaton(
    alloc: Global,
    passing: &Option<PassingPattern>,
) -> Result<Option<Nfa<Letter>>, Memory>
    ensures { IfOk result (λ automaton. IsPassingAutomaton passing.now automaton) }
{
    match passing {
        None => Ok(None),
        Some(clause) => {
            let automaton = automaton_of(alloc, &clause.pattern, clause.first, clause.last)?;
            Ok(Some(automaton))
        }
    }
}

/// Adds the sets of edges that gaps of a goal go over, unless an index takes it.
fn add_gap_sets(alloc: Global, goal: &Goal, sets: &mut GapSets) -> Result<(), Memory> {
    if is_plain(goal.word()) {
        return Ok(());
    }
    let pattern = goal.pattern(alloc)?;
    sets.add(alloc, &pattern)
}

/// The sets of edges that gaps of these goals go over.
fn gap_sets_of(alloc: Global, goals: &[Goal]) -> Result<GapSets, Memory> {
    let mut sets = GapSets::new(alloc);
    for goal in goals {
        add_gap_sets(alloc, goal, &mut sets)?;
    }
    Ok(sets)
}

/// What tells the matches of a pattern whose matches take this edge first, where there is one.
fn matcher_of(
    alloc: Global,
    pattern: &Pattern<Letter>,
    opening: Option<u32>,
    sets: &GapSets,
    first: bool,
    last: bool,
) -> Result<Matcher, Memory>
    requires { IsOpening opening first (form pattern.now) }
    ensures { IfOk result (λ matcher. IsMatcherOf sets.now first last (form pattern.now) matcher) }
{
    match GapWord::of(alloc, pattern, sets)? {
        Some(word) => Ok(Matcher::Gaps(word)),
        None => {
            let automaton = automaton_of(alloc, pattern, first, last)?;
            Ok(Matcher::Automaton { opening, automaton })
        }
    }
}

/// What tells the matches of the goal at a place.
fn goal_matcher(
    alloc: Global,
    place: usize,
    goal: &Goal,
    sets: &GapSets,
    first: bool,
    last: bool,
) -> Result<GoalMatcher, Memory>
    ensures number { IfOk result (λ own. own.number ≡ place + 1) }
    ensures matcher { IfOk result (λ own. IsMatcherOf sets.now first last (form goal.now.pattern) own.matcher) }
{
    if place >= u32::MAX as usize {
        return Err(Memory);
    }
    goal.pattern_is_of_word();
    let pattern = goal.pattern(alloc)?;
    let opening = opening_of(goal.word(), first);
    Ok(GoalMatcher {
        number: place as u32 + 1,
        matcher: matcher_of(alloc, &pattern, opening, sets, first, last)?,
    })
}

/// What tells the matches of the goals that no index takes.
fn matchers_of(
    alloc: Global,
    goals: &[Goal],
    sets: &GapSets,
    first: bool,
    last: bool,
) -> Result<Vector<GoalMatcher>, Memory>
    ensures { IfOk result (λ matchers. AreMatchers sets.now goals.now first last (length goals.now) matchers) }
{
    let mut matchers = Vector::new(alloc);
    for (place, goal) in goals.iter().enumerate() {
        if !is_plain(goal.word()) {
            let own = goal_matcher(alloc, place, goal, sets, first, last)?;
            matchers.push(own)?;
        }
    }
    Ok(matchers)
}
