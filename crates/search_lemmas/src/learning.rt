// What a refutation teaches.
ghost use Rattle.std.specs.Prelude.{◌≡◌, ℕ, List, Option as Maybe, IfOk, IfSome};
ghost use Rattle.circuit.specs.declared.lit.Gate.{Gate as OneGate};
ghost use Rattle.search_lemmas.specs.Holding.{HoldsAlways, IsKnown};
ghost use Rattle.search_lemmas.specs.Known.{AllKnown, IsRight};
ghost use Rattle.search_lemmas.specs.Store.{Hold};

use crate::held::Held;
use crate::known::{is_marked, known_clauses, mark_lines};
use crate::lesson::Lessons;
use crate::naming::renamed;
use crate::refutation::Refutation;
use circuit::Circuit;
use cnf::{Clause, DerivationLine, clause_before, resolve};
use containers::TryClone;
use fq_core::Memory;
use std::alloc::Global;

/// So many literals has a lesson at most.
const LONGEST: usize = 30;

/// The wires of the variables, from variable 1 on, where a table has the variables of wires.
fn wires_of(alloc: Global, variable: &[Option<u32>]) -> Result<Vec<Option<u32>>, Memory> {
    let mut wires = Vec::new(alloc);
    let mut wire: u32 = 0;
    for number in variable {
        wire = wire.wrapping_add(1);
        if number.is_some() {
            wires.push(Some(wire))?;
        }
    }
    Ok(wires)
}

/// What a step of a chain makes of a clause: the resolvent with the clause on which it stands, if it has one to stand on.
fn after_step(
    alloc: Global,
    clause: Clause,
    pivot: i32,
    antecedent: Option<&Clause>,
) -> Result<Clause, Memory>
    ensures { (gates : List OneGate) (wires : List (Maybe ℕ)) → IsKnown gates wires clause
        → IfSome antecedent.entry (λ known. IsKnown gates wires known.now)
        → IfOk result (IsKnown gates wires) }
{
    let Some(known) = antecedent else {
        return Ok(clause);
    };
    match resolve(alloc, &clause, pivot, known)? {
        Some(next) => Ok(next),
        None => Ok(clause),
    }
}

/// The first clause of a line's chain that has a mark.
fn first_marked<'a>(
    refutation: &Refutation<'a>,
    marks: &[bool],
    line: &DerivationLine,
) -> Option<&'a Clause>
    ensures { (gates : List OneGate) (wires : List (Maybe ℕ))
        → AllKnown gates wires refutation.now marks.now
        → IfSome result (λ clause. IsKnown gates wires clause.now) }
{
    let first = marked_clause(refutation, marks, line.first);
    if first.is_some() {
        return first;
    }
    for step in line.steps.iter() {
        let found = marked_clause(refutation, marks, step.0);
        if found.is_some() {
            return found;
        }
    }
    None
}

/// What the steps of a line's chain come to that stand on clauses with marks, from the first such clause on. The literals that
/// other steps resolve away stay.
fn known_part(
    alloc: Global,
    refutation: &Refutation,
    marks: &[bool],
    line: &DerivationLine,
) -> Result<Option<Clause>, Memory>
    ensures { (gates : List OneGate) (wires : List (Maybe ℕ))
        → AllKnown gates wires refutation.now marks.now
        → IfOk result (λ made. IfSome made (IsKnown gates wires)) }
{
    let Some(first) = first_marked(refutation, marks, line) else {
        return Ok(None);
    };
    let mut clause = first.try_clone(alloc)?;
    for step in line.steps.iter() {
        let antecedent = marked_clause(refutation, marks, step.0);
        clause = after_step(alloc, clause, step.1, antecedent)?;
    }
    Ok(Some(clause))
}

/// The clause with a number, where it has a mark.
fn marked_clause<'a>(refutation: &Refutation<'a>, marks: &[bool], number: u32) -> Option<&'a Clause>
    ensures { (gates : List OneGate) (wires : List (Maybe ℕ))
        → AllKnown gates wires refutation.now marks.now
        → IfSome result (λ clause. IsKnown gates wires clause.now) }
{
    if !is_marked(marks, number) {
        return None;
    }
    let derivation = refutation.derivation;
    clause_before(
        refutation.formula,
        derivation,
        derivation.lines.len(),
        number,
    )
}

/// A clause over variables as one over their wires, unless it is too long.
fn over_wires(
    alloc: Global,
    wires: &[Option<u32>],
    clause: &Clause,
) -> Result<Option<Clause>, Memory>
    ensures { (gates : List OneGate) → IsKnown gates wires.now clause.now
        → IfOk result (λ made. IfSome made (HoldsAlways gates)) }
{
    let literals = clause.literals();
    if literals.len() > LONGEST {
        return Ok(None);
    }
    renamed(alloc, wires, literals)
}

/// The clause over wires that a refutation teaches, if there is one that isn't too long.
fn taught(alloc: Global, held: &Held, refutation: &Refutation) -> Result<Option<Clause>, Memory>
    requires { IsRight refutation.now }
    ensures { IfOk result (λ made. IfSome made (HoldsAlways held.now.circuit.now)) }
{
    let Some(line) = refutation.derivation.lines.last() else {
        return Ok(None);
    };
    let count = refutation.variable.len().min(held.circuit.wires() as usize);
    let wires = wires_of(alloc, &refutation.variable[..count])?;
    let mut marks = known_clauses(alloc, held, &wires, refutation)?;
    mark_lines(&mut marks, refutation)?;
    let Some(part) = known_part(alloc, refutation, &marks, line)? else {
        return Ok(None);
    };
    over_wires(alloc, &wires, &part)
}

impl Lessons {
    // Notes that a refutation stands on the clause with a number, where that is a lesson.
    fn note_number(&mut self, refutation: &Refutation, number: u32)
        ensures { self.new.clauses ≡ self.old.clauses }
    {
        if number == 0 {
            return;
        }
        if let Some(place) = refutation.lesson_at(number as usize - 1) {
            self.note(place);
        }
    }

    // Notes on which lessons a line stands.
    fn note_line(&mut self, refutation: &Refutation, line: &DerivationLine)
        ensures { self.new.clauses ≡ self.old.clauses }
    {
        self.note_number(refutation, line.first);
        for step in line.steps.iter() {
            self.note_number(refutation, step.0);
        }
    }

    // Notes on which lessons the lines of a refutation stand.
    fn note_lines(&mut self, refutation: &Refutation)
        ensures { self.new.clauses ≡ self.old.clauses }
    {
        for line in refutation.derivation.lines.iter() {
            self.note_line(refutation, line);
        }
    }

    /// Learns from the refutation of a goal's formula. What the steps of its last chain come to that stand on clauses of the
    /// circuit's gates, on lessons and on lines that stand on such clauses alone is kept, where at most 30 literals are left.
    pub fn learn(
        &mut self,
        alloc: Global,
        circuit: &Circuit,
        refutation: &Refutation,
    ) -> Result<(), Memory>
        requires lessons { Hold circuit.now self.old }
        requires right { IsRight refutation.now }
        ensures { Hold circuit.now self.new }
    {
        self.refutations = self.refutations.wrapping_add(1);
        self.note_lines(refutation);
        let held = Held {
            circuit,
            lessons: &self.clauses,
        };
        let made = taught(alloc, &held, refutation)?;
        match made {
            Some(clause) => self.keep(clause),
            None => Ok(()),
        }
    }
}
