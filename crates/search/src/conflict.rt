// What a conflict teaches.
ghost use Rattle.std.specs.Prelude.{◌≡◌, ◌+◌, ◌*◌, ◌<◌, ◌≤◌, ◌^◌, ℕ, ℤ, List, None, Some, neg_ℤ, true, IfOk, IsSomeAnd, OnOk, length};
ghost use Rattle.cnf.specs.Checks.{numbered};
ghost use Rattle.cnf.specs.Clauses.{IsLiteral, has_literal, literal_key as key_of};
ghost use Rattle.cnf.specs.literal_marks.Marks.{IsClear, marked};
ghost use Rattle.cnf.specs.declared.literal_marks.places.Places.TheVariants.{ByKey};
ghost use Rattle.search.specs.Chains.{IsBack, IsGoing, IsLastDecision, IsReach};
ghost use Rattle.search.specs.Lessons.{IsLesson};
ghost use Rattle.search.specs.Machine.{is_conflict, is_true};
ghost use Rattle.search.specs.Sound.{IsSound, all_clauses};
ghost use Rattle.search.specs.Trails.{AreLocated};
ghost use Rattle.search.specs.Watching.{IsDecidedAt};
ghost use Rattle.search.specs.declared.trail.Entry.{Entry as EntryValue};

use crate::chain::{Chain, add_others, take_back};
use crate::landing::{Landing, landing_of};
use crate::minimizing::minimize;
use crate::trail::Entry;
use cnf::literal_marks::{Places, unmark_all};
use cnf::{Clause, Derivation, DerivationLine, Formula, clause_before, literal_key, negation};
use containers::Vector;
use fq_core::Memory;
use std::alloc::{AllocError, Global};

/// A line that follows from a conflict, and where the jump lands that learns it. There is none where the line's clause is
/// empty.
#[derive(Debug, Drop)]
pub(crate) struct Lesson {
    pub line: DerivationLine,
    pub landing: Option<Landing>,
    /// All literals that were in the resolved clauses until the implication point was reached.
    pub seen: Vec<i32>,
}

// The steps of a line, which is kept, without room for more.
fn fitted(steps: Vec<(u32, i32)>) -> Vector<(u32, i32)>
    ensures { result ≡ steps.items }
{
    let mut steps = steps;
    steps.shrink_to_fit();
    Vector::from_vec(steps)
}

// The length of the shortest beginning of the trail by which these literals are false.
fn reach_of(places: &[u32], literals: &[i32]) -> usize
    requires over { (x : ℤ) → has_literal literals.now x ≡ true → IsLiteral x × (key_of (neg_ℤ x) < length places.now) }
    ensures { (trail : List EntryValue) → AreLocated trail places.now → is_conflict (is_true trail) literals.now ≡ true → IsReach trail literals.now result }
{
    let mut reach = 0;
    for literal in literals {
        let place = places[literal_key(negation(*literal))] as usize;
        if reach <= place {
            reach = place + 1;
        }
    }
    reach
}

// Where the last decision before a place stands.
fn last_decision(trail: &[Entry], reach: usize) -> Option<usize>
    requires { reach ≤ length trail.now }
    ensures { IsLastDecision trail.now reach result }
{
    for back in 0..reach {
        let place = reach - 1 - back;
        if trail[place].reason.is_none() {
            return Some(place);
        }
    }
    None
}

// Goes back along the trail from a place, until one marked literal is left that wasn't false before the last decision.
fn go_back(
    marks: &mut [bool],
    chain: &mut Chain,
    places: &[u32],
    formula: &Formula,
    learned: &Derivation,
    trail: &[Entry],
    reach: usize,
) -> Result<(), AllocError>
    requires sound { IsSound formula.now learned.now trail.now }
    requires small { formula.now.variables ≤ 2 ^ 30 }
    requires size { length marks.old ≡ 2 * formula.now.variables + 2 }
    requires room { length places.now ≡ 2 * formula.now.variables + 2 }
    requires located { AreLocated trail.now places.now }
    requires reach { reach ≤ length trail.now }
    requires implied { (d : ℕ) → IsDecidedAt trail.now d → chain.old.start < d → d < reach → ⊥ }
    requires going { IsGoing trail.now (marked ByKey marks.old) reach chain.old }
    ensures size { length marks.new ≡ length marks.old }
    ensures start { OnOk result (chain.new.start ≡ chain.old.start) }
    ensures back { (first : List ℤ) → IsBack (all_clauses formula.now learned.now) trail.now first reach (marked ByKey marks.old) chain.old.steps.items →
        OnOk result (IsBack (all_clauses formula.now learned.now) trail.now first (chain.new.low + 1) (marked ByKey marks.new) chain.new.steps.items) }
    ensures going { OnOk result (IsGoing trail.now (marked ByKey marks.new) (chain.new.low + 1) chain.new) }
{
    let mut front = reach;
    while chain.low + 1 < front {
        front -= 1;
        take_back(marks, chain, places, formula, learned, trail, front)?;
    }
    Ok(())
}

// Goes back along the trail from a place, before which nothing was decided, to its beginning.
fn go_back_whole(
    marks: &mut [bool],
    chain: &mut Chain,
    places: &[u32],
    formula: &Formula,
    learned: &Derivation,
    trail: &[Entry],
    reach: usize,
) -> Result<(), AllocError>
    requires sound { IsSound formula.now learned.now trail.now }
    requires small { formula.now.variables ≤ 2 ^ 30 }
    requires size { length marks.old ≡ 2 * formula.now.variables + 2 }
    requires room { length places.now ≡ 2 * formula.now.variables + 2 }
    requires located { AreLocated trail.now places.now }
    requires reach { reach ≤ length trail.now }
    requires implied { (d : ℕ) → IsDecidedAt trail.now d → d < reach → ⊥ }
    ensures size { length marks.new ≡ length marks.old }
    ensures back { (first : List ℤ) → IsBack (all_clauses formula.now learned.now) trail.now first reach (marked ByKey marks.old) chain.old.steps.items →
        OnOk result (IsBack (all_clauses formula.now learned.now) trail.now first 0 (marked ByKey marks.new) chain.new.steps.items) }
{
    for back in 0..reach {
        let place = reach - 1 - back;
        take_back(marks, chain, places, formula, learned, trail, place)?;
    }
    Ok(())
}

// Resolves a clause that is false by a beginning of the trail in which nothing was decided, until it is empty.
fn refuting_lesson(
    alloc: Global,
    marks: &mut [bool],
    places: &[u32],
    formula: &Formula,
    learned: &Derivation,
    trail: &[Entry],
    conflict: u32,
    clause: &Clause,
    reach: usize,
) -> Result<Lesson, Memory>
    requires sound { IsSound formula.now learned.now trail.now }
    requires small { formula.now.variables ≤ 2 ^ 30 }
    requires size { length marks.old ≡ 2 * formula.now.variables + 2 }
    requires room { length places.now ≡ 2 * formula.now.variables + 2 }
    requires located { AreLocated trail.now places.now }
    requires clear { IsClear ByKey marks.old }
    requires named { numbered (all_clauses formula.now learned.now) conflict ≡ Some clause.now }
    requires reach { IsReach trail.now clause.now reach }
    requires inside { reach ≤ length trail.now }
    requires implied { (d : ℕ) → IsDecidedAt trail.now d → d < reach → ⊥ }
    ensures lesson { IfOk result (λ lesson. IsLesson (all_clauses formula.now learned.now) trail.now conflict lesson.line lesson.landing) }
    ensures clear { OnOk result (IsClear ByKey marks.new) }
    ensures size { length marks.new ≡ length marks.old }
{
    let mut chain = Chain {
        start: 0,
        found: Vec::new(alloc),
        low: 0,
        steps: Vec::new(alloc),
        seen: Vec::new(alloc),
    };
    add_others(marks, &mut chain, places, clause.literals(), None)?;
    go_back_whole(marks, &mut chain, places, formula, learned, trail, reach)?;
    let clause = Clause::new(alloc, &[])?;
    Ok(Lesson {
        line: DerivationLine {
            clause,
            first: conflict,
            steps: fitted(chain.steps),
        },
        landing: None,
        seen: chain.seen,
    })
}

// Resolves a clause that is false by a beginning of the trail, in which the last decision has this place, until one literal
// is left that wasn't false before it, the first unique implication point's negation, and then on the literals that the
// others imply.
fn asserting_lesson(
    alloc: Global,
    marks: &mut [bool],
    places: &[u32],
    formula: &Formula,
    learned: &Derivation,
    trail: &[Entry],
    conflict: u32,
    clause: &Clause,
    reach: usize,
    start: usize,
) -> Result<Lesson, Memory>
    requires sound { IsSound formula.now learned.now trail.now }
    requires small { formula.now.variables ≤ 2 ^ 30 }
    requires size { length marks.old ≡ 2 * formula.now.variables + 2 }
    requires room { length places.now ≡ 2 * formula.now.variables + 2 }
    requires located { AreLocated trail.now places.now }
    requires clear { IsClear ByKey marks.old }
    requires named { numbered (all_clauses formula.now learned.now) conflict ≡ Some clause.now }
    requires reach { IsReach trail.now clause.now reach }
    requires inside { reach ≤ length trail.now }
    requires start { IsLastDecision trail.now reach (Some start) }
    ensures lesson { IfOk result (λ lesson. IsLesson (all_clauses formula.now learned.now) trail.now conflict lesson.line lesson.landing) }
    ensures clear { OnOk result (IsClear ByKey marks.new) }
    ensures size { length marks.new ≡ length marks.old }
{
    let mut chain = Chain {
        start,
        found: Vec::new(alloc),
        low: reach - 1,
        steps: Vec::new(alloc),
        seen: Vec::new(alloc),
    };
    add_others(marks, &mut chain, places, clause.literals(), None)?;
    go_back(marks, &mut chain, places, formula, learned, trail, reach)?;
    minimize(alloc, marks, &mut chain, places, formula, learned, trail)?;
    let literal = negation(trail[chain.low].literal);
    let landing = landing_of(marks, trail, formula.variables, start, literal);
    chain.found.push(literal)?;
    let clause = Clause::new(alloc, &chain.found)?;
    unmark_all(&Places::ByKey, marks, clause.literals());
    Ok(Lesson {
        line: DerivationLine {
            clause,
            first: conflict,
            steps: fitted(chain.steps),
        },
        landing: Some(landing),
        seen: chain.seen,
    })
}

/// Resolves the clause with this number, which is false, back along the trail to the first unique implication point, or
/// until it is empty, where nothing was decided before its literals became false.
pub(crate) fn lesson_of(
    alloc: Global,
    marks: &mut [bool],
    places: &[u32],
    formula: &Formula,
    learned: &Derivation,
    trail: &[Entry],
    conflict: u32,
) -> Result<Lesson, Memory>
    requires sound { IsSound formula.now learned.now trail.now }
    requires small { formula.now.variables ≤ 2 ^ 30 }
    requires size { length marks.old ≡ 2 * formula.now.variables + 2 }
    requires room { length places.now ≡ 2 * formula.now.variables + 2 }
    requires located { AreLocated trail.now places.now }
    requires clear { IsClear ByKey marks.old }
    requires conflict { IsSomeAnd (numbered (all_clauses formula.now learned.now) conflict) (λ clause. is_conflict (is_true trail.now) clause ≡ true) }
    ensures lesson { IfOk result (λ lesson. IsLesson (all_clauses formula.now learned.now) trail.now conflict lesson.line lesson.landing) }
    ensures clear { OnOk result (IsClear ByKey marks.new) }
    ensures size { length marks.new ≡ length marks.old }
{
    match clause_before(formula, learned, learned.lines.len(), conflict) {
        None => unreachable!(),
        Some(clause) => {
            let reach = reach_of(places, clause.literals());
            match last_decision(trail, reach) {
                None => refuting_lesson(
                    alloc, marks, places, formula, learned, trail, conflict, clause, reach,
                ),
                Some(start) => asserting_lesson(
                    alloc, marks, places, formula, learned, trail, conflict, clause, reach, start,
                ),
            }
        }
    }
}
