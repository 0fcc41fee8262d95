// Which clauses of a refutation hold in every world: those of gates, lessons, and lines that stand on such clauses alone.
ghost use Rattle.std.specs.Prelude.{◌≡◌, ◌+◌, ◌≤◌, ℕ, List, Option as Maybe, All, IfOk, IsTrue, OnOk, length};
ghost use Rattle.circuit.specs.declared.lit.Gate.{Gate as OneGate};
ghost use Rattle.search_lemmas.specs.Holding.{IsKnown};
ghost use Rattle.search_lemmas.specs.Known.{AllKnown, AreKnown, IsMarked, IsRight, StandsOn};
ghost use Rattle.search_lemmas.specs.Store.{AllHold};

use crate::gates::is_of_gate;
use crate::held::Held;
use crate::naming::are_named;
use crate::refutation::Refutation;
use cnf::{Clause, DerivationLine};
use fq_core::Memory;
use std::alloc::Global;

/// Whether a clause is a lesson, where `wires` lists the wires of the variables from 1 on.
fn is_lesson(lessons: &[Clause], lesson: usize, wires: &[Option<u32>], literals: &[i32]) -> bool
    ensures { IsTrue result → (gates : List OneGate) → AllHold gates lessons.now
        → IsKnown gates wires.now literals.now }
{
    if lesson >= lessons.len() {
        return false;
    }
    are_named(wires, literals, lessons[lesson].literals())
}

/// Whether a clause is one of a gate, or is the lesson of a place, if there is one.
fn is_base(held: &Held, wires: &[Option<u32>], lesson: Option<usize>, literals: &[i32]) -> bool
    ensures { IsTrue result → IsKnown held.now.circuit.now wires.now literals.now }
{
    match lesson {
        Some(place) => is_lesson(held.lessons, place, wires, literals),
        None => is_of_gate(held.circuit, wires, literals),
    }
}

/// A mark for each clause of a formula: whether it is one of a gate or a lesson.
pub(crate) fn known_clauses(
    alloc: Global,
    held: &Held,
    wires: &[Option<u32>],
    refutation: &Refutation,
) -> Result<Vec<bool>, Memory>
    ensures known { IfOk result (λ marks.
        AreKnown held.now.circuit.now wires.now refutation.now.formula.now.clauses marks.items) }
    ensures size { IfOk result (λ marks.
        length marks.items ≡ length refutation.now.formula.now.clauses) }
{
    let formula = refutation.formula;
    let mut marks = Vec::with_capacity(alloc, formula.clauses.len())?;
    for (place, clause) in formula.clauses.iter().enumerate() {
        let lesson = refutation.lesson_at(place);
        let mark = is_base(held, wires, lesson, clause.literals());
        marks.push(mark)?;
    }
    Ok(marks)
}

/// Whether the clause with a number, from 1, has a mark.
pub(crate) fn is_marked(marks: &[bool], number: u32) -> bool
    ensures { IsTrue result → IsMarked marks.now number }
{
    if number == 0 {
        return false;
    }
    let place = number as usize - 1;
    place < marks.len() && marks[place]
}

/// Whether all steps stand on clauses with marks.
fn are_marked(marks: &[bool], steps: &[(u32, i32)]) -> bool
    ensures { IsTrue result → All (λ step. IsMarked marks.now step.0) steps.now }
{
    steps.iter().all(|step| is_marked(marks, step.0))
}

/// Whether a line stands on clauses with marks alone.
fn stands(marks: &[bool], line: &DerivationLine) -> bool
    ensures { IsTrue result → StandsOn marks.now line.now }
{
    is_marked(marks, line.first) && are_marked(marks, &line.steps)
}

/// Marks the lines of a derivation, behind the clauses of its formula: whether each stands on clauses with marks alone.
pub(crate) fn mark_lines(marks: &mut Vec<bool>, refutation: &Refutation) -> Result<(), Memory>
    requires size { length marks.old.items ≡ length refutation.now.formula.now.clauses }
    requires right { IsRight refutation.now }
    ensures { OnOk result ((gates : List OneGate) (wires : List (Maybe ℕ))
        → AreKnown gates wires refutation.now.formula.now.clauses marks.old.items
        → AllKnown gates wires refutation.now marks.new.items) }
{
    for line in refutation.derivation.lines.iter() {
        let mark = stands(marks, line);
        marks.push(mark)?;
    }
    Ok(())
}
