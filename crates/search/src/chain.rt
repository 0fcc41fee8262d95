// Resolution back along the trail, with the steps of its chain.
ghost use Rattle.std.specs.Prelude.{◌≡◌, ◌⊎◌, ◌+◌, ◌*◌, ◌<◌, ◌≤◌, ◌^◌, ◌&&◌, ◌||◌, ℕ, ℤ, List, neg_ℤ, not, true, IsSomeAnd, IsTrue, OnOk, length, slice_get};
ghost use Rattle.std.specs.List.{list_all};
ghost use Rattle.std.specs.Ordering.{int_eq};
ghost use Rattle.cnf.specs.Checks.{numbered};
ghost use Rattle.cnf.specs.Clauses.{IsLiteral, has_literal, literal_key as key_of};
ghost use Rattle.cnf.specs.Resolution.{can_resolve, resolvent};
ghost use Rattle.cnf.specs.literal_marks.Marks.{marked};
ghost use Rattle.cnf.specs.declared.literal_marks.places.Places.TheVariants.{ByKey};
ghost use Rattle.search.specs.Chains.{AreFalseOthers, IsAdded, IsBack, IsGoing, skips, without};
ghost use Rattle.search.specs.Laws.{is_over};
ghost use Rattle.search.specs.Machine.{is_true};
ghost use Rattle.search.specs.Sound.{IsSound, all_clauses};
ghost use Rattle.search.specs.Trails.{AreLocated, IsTrail};
ghost use Rattle.search.specs.Watching.{IsDecidedAt};
ghost use Rattle.search.specs.declared.trail.Entry.{Entry as EntryValue};

use crate::trail::Entry;
use cnf::literal_marks::{Places, is_marked, mark, unmark};
use cnf::{Derivation, Formula, clause_before, literal_key, negation};
use std::alloc::AllocError;

/// A clause that is resolved back along the trail, beside a table of marks of its literals, and the steps so far.
#[derive(Drop)]
pub(crate) struct Chain {
    /// The place of a decided literal.
    pub start: usize,
    /// The clause's literals that are false before it.
    pub found: Vec<i32>,
    /// The lowest place, from there on, of an entry whose literal's negation is in the clause.
    pub low: usize,
    /// Numbers of antecedents and pivots.
    pub steps: Vec<(u32, i32)>,
    /// All literals that were in the clause until its implication point was reached.
    pub seen: Vec<i32>,
}

// Adds a literal, which is false.
fn add_literal(
    marks: &mut [bool],
    chain: &mut Chain,
    places: &[u32],
    literal: i32,
) -> Result<(), AllocError>
    requires literal { IsLiteral literal }
    requires mark { key_of literal < length marks.old }
    requires place { key_of (neg_ℤ literal) < length places.now }
    ensures marks { (x : ℤ) → marked ByKey marks.new x ≡ (marked ByKey marks.old x || int_eq literal x) }
    ensures size { length marks.new ≡ length marks.old }
    ensures chain { (n : ℕ) (trail : List EntryValue) → IsTrail n trail → AreLocated trail places.now → is_true trail (neg_ℤ literal) ≡ true →
        OnOk result (IsAdded trail (marked ByKey marks.old) chain.old (marked ByKey marks.new) chain.new) }
{
    if is_marked(&Places::ByKey, marks, literal) {
        return Ok(());
    }
    mark(&Places::ByKey, marks, literal);
    chain.seen.push(literal)?;
    let place = places[literal_key(negation(literal))] as usize;
    if place < chain.start {
        chain.found.push(literal)?;
    } else if place < chain.low {
        chain.low = place;
    }
    Ok(())
}

/// Whether a literal is the one that is skipped.
pub(crate) fn is_skipped(skipped: Option<i32>, literal: i32) -> bool
    ensures { result ≡ skips skipped literal }
{
    match skipped {
        Some(other) => other == literal,
        None => false,
    }
}

/// Adds the literals of a clause, which are false, but for one that is skipped.
pub(crate) fn add_others(
    marks: &mut [bool],
    chain: &mut Chain,
    places: &[u32],
    literals: &[i32],
    skipped: Option<i32>,
) -> Result<(), AllocError>
    requires size { length marks.old ≡ length places.now }
    requires over { (x : ℤ) → has_literal literals.now x ≡ true → IsLiteral x × (key_of x < length places.now) × (key_of (neg_ℤ x) < length places.now) }
    ensures size { length marks.new ≡ length marks.old }
    ensures marks { OnOk result ((x : ℤ) → marked ByKey marks.new x ≡ (marked ByKey marks.old x || (has_literal literals.now x && not (skips skipped x)))) }
    ensures chain { (n : ℕ) (trail : List EntryValue) → IsTrail n trail → AreLocated trail places.now → AreFalseOthers trail literals.now skipped →
        OnOk result (IsAdded trail (marked ByKey marks.old) chain.old (marked ByKey marks.new) chain.new) }
{
    for literal in literals {
        if !is_skipped(skipped, *literal) {
            add_literal(marks, chain, places, *literal)?;
        }
    }
    Ok(())
}

// Resolves the marked clause with the one that has a number.
fn resolve_with(
    marks: &mut [bool],
    chain: &mut Chain,
    places: &[u32],
    formula: &Formula,
    learned: &Derivation,
    number: u32,
    pivot: i32,
) -> Result<(), AllocError>
    requires over { list_all (list_all (is_over formula.now.variables)) (all_clauses formula.now learned.now) ≡ true }
    requires small { formula.now.variables ≤ 2 ^ 30 }
    requires size { length marks.old ≡ 2 * formula.now.variables + 2 }
    requires room { length places.now ≡ 2 * formula.now.variables + 2 }
    requires pivot { IsLiteral pivot }
    ensures size { length marks.new ≡ length marks.old }
    ensures marks { (clause : List ℤ) → numbered (all_clauses formula.now learned.now) number ≡ Some clause →
        OnOk result ((x : ℤ) → marked ByKey marks.new x ≡ resolvent (marked ByKey marks.old) pivot (has_literal clause) x) }
    ensures chain { (n : ℕ) (trail : List EntryValue) (clause : List ℤ) → IsTrail n trail → AreLocated trail places.now → numbered (all_clauses formula.now learned.now) number ≡ Some clause →
        AreFalseOthers trail clause (Some (neg_ℤ pivot)) → OnOk result (IsAdded trail (without (marked ByKey marks.old) pivot) chain.old (marked ByKey marks.new) chain.new) }
{
    if let Some(clause) = clause_before(formula, learned, learned.lines.len(), number) {
        unmark(&Places::ByKey, marks, pivot);
        let skipped = Some(negation(pivot));
        add_others(marks, chain, places, clause.literals(), skipped)?;
    }
    Ok(())
}

/// One entry back, which a clause implied: where the negation of its literal is marked, the marked clause is resolved with
/// that one.
pub(crate) fn take_back(
    marks: &mut [bool],
    chain: &mut Chain,
    places: &[u32],
    formula: &Formula,
    learned: &Derivation,
    trail: &[Entry],
    place: usize,
) -> Result<(), AllocError>
    requires sound { IsSound formula.now learned.now trail.now }
    requires small { formula.now.variables ≤ 2 ^ 30 }
    requires size { length marks.old ≡ 2 * formula.now.variables + 2 }
    requires room { length places.now ≡ 2 * formula.now.variables + 2 }
    requires located { AreLocated trail.now places.now }
    requires place { place < length trail.now }
    requires implied { IsDecidedAt trail.now place → ⊥ }
    ensures size { length marks.new ≡ length marks.old }
    ensures start { OnOk result (chain.new.start ≡ chain.old.start) }
    ensures back { (first : List ℤ) → IsBack (all_clauses formula.now learned.now) trail.now first (place + 1) (marked ByKey marks.old) chain.old.steps.items →
        OnOk result (IsBack (all_clauses formula.now learned.now) trail.now first place (marked ByKey marks.new) chain.new.steps.items) }
    ensures going { chain.old.start ≤ place → chain.old.low < place → IsGoing trail.now (marked ByKey marks.old) (place + 1) chain.old →
        OnOk result (IsGoing trail.now (marked ByKey marks.new) place chain.new) }
{
    let entry = trail[place];
    let negated = negation(entry.literal);
    if !is_marked(&Places::ByKey, marks, negated) {
        return Ok(());
    }
    match entry.reason {
        None => unreachable!(),
        Some(number) => {
            resolve_with(marks, chain, places, formula, learned, number, negated)?;
            chain.steps.push((number, negated))?;
            Ok(())
        }
    }
}
