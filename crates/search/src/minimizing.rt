// Literals that leave a learned clause, since its others imply them (self-subsumption: Sörensson and Biere 2009, the
// recursive minimisation of MiniSat), by resolution with the clauses that implied their negations.
ghost use Rattle.std.specs.Prelude.{◌≡◌, ◌+◌, ◌*◌, ◌<◌, ◌≤◌, ◌^◌, ◌&&◌, ◌||◌, ℤ, List, filter, not, true, IfOk, OnOk, length};
ghost use Rattle.std.specs.Ordering.{int_eq};
ghost use Rattle.cnf.specs.Clauses.{IsLiteral, has_literal, literal_key as key_of};
ghost use Rattle.cnf.specs.literal_marks.Marks.{marked};
ghost use Rattle.cnf.specs.declared.literal_marks.places.Places.TheVariants.{ByKey};
ghost use Rattle.search.specs.Chains.{IsBack, IsGoing, IsThinned, IsWider, skips};
ghost use Rattle.search.specs.Sound.{IsSound, all_clauses};

use crate::chain::{Chain, is_skipped};
use crate::implied::{Falsified, implied_places};
use crate::trail::Entry;
use cnf::literal_marks::{Places, is_marked, mark, unmark};
use cnf::{Derivation, Formula, clause_before, negation};
use std::alloc::{AllocError, Global};

// Adds a literal that is false before the last decision.
fn add_found(marks: &mut [bool], chain: &mut Chain, literal: i32) -> Result<(), AllocError>
    requires literal { IsLiteral literal }
    requires mark { key_of literal < length marks.old }
    ensures size { length marks.new ≡ length marks.old }
    ensures marks { (x : ℤ) → marked ByKey marks.new x ≡ (marked ByKey marks.old x || int_eq literal x) }
    ensures start { OnOk result (chain.new.start ≡ chain.old.start) }
    ensures low { OnOk result (chain.new.low ≡ chain.old.low) }
    ensures steps { OnOk result (chain.new.steps ≡ chain.old.steps) }
    ensures wider { OnOk result (IsWider (marked ByKey marks.old) chain.old.found.items (marked ByKey marks.new) chain.new.found.items (int_eq literal)) }
{
    if is_marked(&Places::ByKey, marks, literal) {
        return Ok(());
    }
    mark(&Places::ByKey, marks, literal);
    chain.found.push(literal)?;
    Ok(())
}

// Adds the literals of a clause, which are false before the last decision, but for one that is skipped.
fn add_others_found(
    marks: &mut [bool],
    chain: &mut Chain,
    literals: &[i32],
    skipped: Option<i32>,
) -> Result<(), AllocError>
    requires over { (x : ℤ) → has_literal literals.now x ≡ true → IsLiteral x × (key_of x < length marks.old) }
    ensures size { length marks.new ≡ length marks.old }
    ensures marks { OnOk result ((x : ℤ) → marked ByKey marks.new x ≡ (marked ByKey marks.old x || (has_literal literals.now x && not (skips skipped x)))) }
    ensures start { OnOk result (chain.new.start ≡ chain.old.start) }
    ensures low { OnOk result (chain.new.low ≡ chain.old.low) }
    ensures steps { OnOk result (chain.new.steps ≡ chain.old.steps) }
    ensures wider { OnOk result (IsWider (marked ByKey marks.old) chain.old.found.items (marked ByKey marks.new) chain.new.found.items (λ x. has_literal literals.now x && not (skips skipped x))) }
{
    for literal in literals {
        if !is_skipped(skipped, *literal) {
            add_found(marks, chain, *literal)?;
        }
    }
    Ok(())
}

// Resolves the marked clause on the negation of the literal at a place before the last decision, with the clause that
// implied it.
fn drop_implied(
    marks: &mut [bool],
    chain: &mut Chain,
    formula: &Formula,
    learned: &Derivation,
    trail: &[Entry],
    place: usize,
) -> Result<(), AllocError>
    requires sound { IsSound formula.now learned.now trail.now }
    requires small { formula.now.variables ≤ 2 ^ 30 }
    requires size { length marks.old ≡ 2 * formula.now.variables + 2 }
    ensures size { length marks.new ≡ length marks.old }
    ensures thinned { OnOk result (IsThinned (all_clauses formula.now learned.now) trail.now (marked ByKey marks.old) chain.old (marked ByKey marks.new) chain.new) }
{
    if place >= chain.start || place >= trail.len() {
        return Ok(());
    }
    let entry = trail[place];
    let negated = negation(entry.literal);
    if !is_marked(&Places::ByKey, marks, negated) {
        return Ok(());
    }
    let Some(number) = entry.reason else {
        return Ok(());
    };
    if let Some(clause) = clause_before(formula, learned, learned.lines.len(), number) {
        unmark(&Places::ByKey, marks, negated);
        add_others_found(marks, chain, clause.literals(), Some(entry.literal))?;
        chain.steps.push((number, negated))?;
    }
    Ok(())
}

// Those of these literals that are marked.
fn still_marked(alloc: Global, marks: &[bool], literals: &[i32]) -> Result<Vec<i32>, AllocError>
    ensures { IfOk result (λ kept. kept.items ≡ filter (marked ByKey marks.now) literals.now) }
{
    literals
        .iter()
        .filter(|literal| is_marked(&Places::ByKey, marks, **literal))
        .copied()
        .collect(alloc)
}

/// Resolves the marked clause on those of its literals that are false before the last decision and that its others imply.
pub(crate) fn minimize(
    alloc: Global,
    marks: &mut [bool],
    chain: &mut Chain,
    places: &[u32],
    formula: &Formula,
    learned: &Derivation,
    trail: &[Entry],
) -> Result<(), AllocError>
    requires sound { IsSound formula.now learned.now trail.now }
    requires small { formula.now.variables ≤ 2 ^ 30 }
    requires size { length marks.old ≡ 2 * formula.now.variables + 2 }
    requires going { IsGoing trail.now (marked ByKey marks.old) (chain.old.low + 1) chain.old }
    ensures size { length marks.new ≡ length marks.old }
    ensures start { OnOk result (chain.new.start ≡ chain.old.start) }
    ensures back { (first : List ℤ) → IsBack (all_clauses formula.now learned.now) trail.now first (chain.old.low + 1) (marked ByKey marks.old) chain.old.steps.items →
        OnOk result (IsBack (all_clauses formula.now learned.now) trail.now first (chain.new.low + 1) (marked ByKey marks.new) chain.new.steps.items) }
    ensures going { OnOk result (IsGoing trail.now (marked ByKey marks.new) (chain.new.low + 1) chain.new) }
{
    let falsified = Falsified {
        marks,
        places,
        formula,
        learned,
        trail,
    };
    let implied = implied_places(alloc, falsified, &chain.found, chain.start)?;
    for place in &implied {
        drop_implied(marks, chain, formula, learned, trail, *place)?;
    }
    chain.found = still_marked(alloc, marks, &chain.found)?;
    Ok(())
}
