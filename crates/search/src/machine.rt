// The search machine.
ghost use Rattle.std.specs.Prelude.{◌≡◌, ◌+◌, ◌<◌, ◌≤◌, ◌^◌, ◌++◌, ◌∷◌, [], ◌||◌, ◌&&◌, ℕ, ℤ, nat_eq, true, false, not, All, Some, IfNone, IfOk, OnOk, IfSome, IsSomeAnd, IsTrue, length, slice_set, take};
ghost use Rattle.std.specs.Int.RustNames.{unsigned_abs};
ghost use Rattle.std.specs.List.{IsDistinct};
ghost use Rattle.std.specs.Ordering.{int_eq};
ghost use Rattle.cnf.specs.Checks.{IsRight, numbered};
ghost use Rattle.cnf.specs.Clauses.{IsLiteral, literal_key as key_of};
ghost use Rattle.cnf.specs.literal_marks.Marks.{has_place, marked};
ghost use Rattle.cnf.specs.declared.literal_marks.places.Places.TheVariants.{ByKey};
ghost use Rattle.search.specs.At.{IsAt, IsSameBut, IsSameButMarks, IsSameButOrder};
ghost use Rattle.search.specs.Laws.{IsFormula};
ghost use Rattle.search.specs.Lessons.{IsLesson};
ghost use Rattle.search.specs.Machine.{EndsAsModel, IsOver, Moves, clauses_of, is_open, is_true, with_entry};
ghost use Rattle.search.specs.Nexts.{IsEnd, jumped, state_of};
ghost use Rattle.search.specs.Conflicts.{IsConflicting};
ghost use Rattle.search.specs.Endings.{IsEnding};
ghost use Rattle.search.specs.Sound.{Implies, all_clauses};
ghost use Rattle.search.specs.Steps.{move_of};
ghost use Rattle.search.specs.Trails.{places};
ghost use Rattle.search.specs.Watching.{IsDecidedAt, is_among};
ghost use Rattle.search.specs.declared.moves.Move.TheVariants as move;

use crate::beginning::Beginning;
use crate::choice::{candidate, model};
use crate::conflict::{Lesson, lesson_of};
use crate::ending::Ending;
use crate::found::Found;
use crate::moves::Step;
use crate::next::{Next, next_of};
use crate::order::Order;
use crate::trail::Entry;
use cnf::literal_marks::{Places, mark, unmark};
use cnf::{Derivation, DerivationLine, Formula, literal_key};
use containers::Vector;
use fq_core::Memory;
use std::alloc::{AllocError, Global};

/// The state of a search, and the moves that led to it.
#[derive(Drop)]
pub(crate) struct Machine {
    pub trail: Vec<Entry>,
    // The literals on the trail, as marks by key.
    pub values: Vec<bool>,
    pub learned: Derivation,
    pub moves: Vec<Step>,
    // By their keys, where the literals on the trail stand.
    pub places: Vec<u32>,
    pub order: Order,
    // A table of marks for the analysis of conflicts, in which nothing is marked before and after it.
    pub marks: Vec<bool>,
}

impl Machine {
    /// The first state, with an empty trail.
    pub fn new(alloc: Global, formula: &Formula, beginning: Beginning) -> Result<Machine, Memory>
        requires formula { IsFormula formula.now }
        requires small { formula.now.variables ≤ 2 ^ 30 }
        requires few { length formula.now.clauses < 2 ^ 32 }
        ensures at { IfOk result (IsAt formula.now) }
        ensures trail { IfOk result (λ m. m.trail.items ≡ []) }
        ensures lines { IfOk result (λ m. length m.learned.lines ≡ 0) }
        ensures moves { IfOk result (λ m. length m.moves.items ≡ 0) }
    {
        let size = 2 * formula.variables as usize + 2;
        let values = vec![in alloc; false; size]?;
        let places = vec![in alloc; 0; size]?;
        let marks = vec![in alloc; false; size]?;
        let order = Order::new(alloc, formula.variables, beginning)?;
        Ok(Machine {
            trail: Vec::new(alloc),
            values,
            learned: Derivation {
                lines: Vector::new(alloc),
            },
            moves: Vec::new(alloc),
            places,
            order,
            marks,
        })
    }

    // The learned lines and a last one.
    fn refutation(self, line: DerivationLine) -> Result<Derivation, Memory>
        ensures { IfOk result (λ d. d.lines ≡ self.learned.lines ++ line ∷ []) }
    {
        let mut derivation = self.learned;
        derivation.lines.push(line)?;
        Ok(derivation)
    }

    // One more literal on the trail.
    fn put(&mut self, literal: i32, reason: Option<u32>) -> Result<(), Memory>
        requires value { IsTrue (has_place ByKey (length self.old.values.items) literal) }
        requires place { key_of literal < length self.old.places.items }
        requires short { length self.old.trail.items < 2 ^ 32 }
        ensures trail { OnOk result (self.new.trail.items ≡ with_entry self.old.trail.items literal reason) }
        ensures values { OnOk result ((x : ℤ) →
            marked ByKey self.new.values.items x ≡ (marked ByKey self.old.values.items x || int_eq literal x)) }
        ensures places { OnOk result (self.new.places.items ≡ slice_set self.old.places.items (key_of literal) (length self.old.trail.items)) }
        ensures order { OnOk result (self.new.order ≡ self.old.order) }
        ensures same { OnOk result (IsSameBut self.old self.new) }
    {
        self.places[literal_key(literal)] = self.trail.len() as u32;
        self.trail.push(Entry { literal, reason })?;
        mark(&Places::ByKey, &mut self.values, literal);
        Ok(())
    }

    // Cuts the trail before a place.
    fn cut_before(&mut self, cut: usize)
        requires inside { cut ≤ length self.old.trail.items }
        requires distinct { IsDistinct nat_eq (places self.old.trail.items) }
        requires literals { All (λ e. IsLiteral e.literal) self.old.trail.items }
        requires values { (x : ℤ) → marked ByKey self.old.values.items x ≡ is_true self.old.trail.items x }
        ensures trail { self.new.trail.items ≡ take cut self.old.trail.items }
        ensures values { (x : ℤ) → marked ByKey self.new.values.items x ≡ is_true (take cut self.old.trail.items) x }
        ensures places { self.new.places ≡ self.old.places }
        ensures order { self.new.order ≡ self.old.order }
        ensures same { IsSameBut self.old self.new }
    {
        unmark_entries(&mut self.values, &self.trail[cut..]);
        self.trail.truncate(cut);
    }

    /// A move that puts a literal on the trail.
    pub fn step(
        &mut self,
        formula: &Formula,
        literal: i32,
        reason: Option<u32>,
        made: Step,
    ) -> Result<(), Memory>
        requires at { IsAt formula.now self.old }
        requires small { formula.now.variables ≤ 2 ^ 30 }
        requires over { IsOver formula.now.variables literal }
        requires free { is_open (is_true self.old.trail.items) literal ≡ true }
        requires implied { IfSome reason (λ number. IsSomeAnd (numbered (all_clauses formula.now self.old.learned) number) (Implies self.old.trail.items literal)) }
        requires allowed { IsSomeAnd (move_of made) (λ move. Moves formula.now (state_of self.old.trail.items self.old.learned) move
            record { trail = with_entry self.old.trail.items literal reason; learned = self.old.learned.lines }) }
        ensures at { OnOk result (IsAt formula.now self.new) }
        ensures trail { OnOk result (self.new.trail.items ≡ with_entry self.old.trail.items literal reason) }
        ensures learned { OnOk result (self.new.learned ≡ self.old.learned) }
        ensures moves { OnOk result (length self.new.moves.items ≡ length self.old.moves.items + 1) }
    {
        self.put(literal, reason)?;
        self.moves.push(made)?;
        Ok(())
    }

    /// A jump: the trail is cut before a decided literal, a line is learned, and its one open literal is put on the trail.
    pub fn jump(
        &mut self,
        formula: &Formula,
        line: DerivationLine,
        cut: usize,
        literal: i32,
    ) -> Result<(), Memory>
        requires at { IsAt formula.now self.old }
        requires small { formula.now.variables ≤ 2 ^ 30 }
        requires over { IsOver formula.now.variables literal }
        requires allowed { Moves formula.now (state_of self.old.trail.items self.old.learned) (move.Jump line cut)
            (jumped formula.now (state_of self.old.trail.items self.old.learned) line cut literal) }
        ensures at { OnOk result (IsAt formula.now self.new) }
        ensures trail { OnOk result (self.new.trail.items ≡ with_entry (take cut self.old.trail.items) literal (Some (length formula.now.clauses + length self.old.learned.lines + 1))) }
        ensures learned { OnOk result (self.new.learned ≡ record { lines = self.old.learned.lines ++ line ∷ [] }) }
        ensures moves { OnOk result (length self.new.moves.items ≡ length self.old.moves.items + 1) }
    {
        let number = formula.clauses.len() + self.learned.lines.len() + 1;
        if number >= 0x1_0000_0000 {
            return Err(Memory);
        }
        let made = Step::Jump { cut: cut as u32 };
        self.learned.lines.push(line)?;
        list_entries(&mut self.order, &self.trail[cut..])?;
        self.cut_before(cut);
        self.put(literal, Some(number as u32))?;
        self.moves.push(made)?;
        Ok(())
    }

    /// What a clause that is false teaches.
    pub fn analyze(
        &mut self,
        alloc: Global,
        formula: &Formula,
        conflict: u32,
    ) -> Result<Lesson, Memory>
        requires at { IsAt formula.now self.old }
        requires small { formula.now.variables ≤ 2 ^ 30 }
        requires conflict { IsConflicting formula.now self.old conflict }
        ensures at { OnOk result (IsAt formula.now self.new) }
        ensures same { IsSameButMarks self.old self.new }
        ensures lesson { IfOk result (λ lesson. IsLesson (all_clauses formula.now self.old.learned) self.old.trail.items conflict lesson.line lesson.landing) }
    {
        let lesson = lesson_of(
            alloc,
            &mut self.marks,
            &self.places,
            formula,
            &self.learned,
            &self.trail,
            conflict,
        )?;
        self.order.bump_all(&lesson.seen);
        Ok(lesson)
    }

    /// The literal of the first open variable in the order of decisions, with the sign that it last had on the trail.
    pub fn next_open(&mut self, formula: &Formula) -> Option<i32>
        requires at { IsAt formula.now self.old }
        requires small { formula.now.variables ≤ 2 ^ 30 }
        ensures at { IsAt formula.now self.new }
        ensures same { IsSameButOrder self.old self.new }
        ensures some { IfSome result (λ x. IsOver formula.now.variables x × (is_open (is_true self.old.trail.items) x ≡ true)) }
        ensures none { IfNone result ((x : ℤ) → IsOver formula.now.variables x → is_open (is_true self.old.trail.items) x ≡ false) }
    {
        while let Some(variable) = self.order.first() {
            let phase = self.order.phase(variable);
            if let Some(literal) = candidate(&self.values, variable, phase, formula.variables) {
                return Some(literal);
            }
            self.order.drop_first();
        }
        None
    }

    /// What a search answers where all variables stand on the trail.
    pub fn satisfied(self, alloc: Global, formula: &Formula) -> Result<Found, Memory>
        requires at { IsAt formula.now self }
        requires small { formula.now.variables ≤ 2 ^ 30 }
        requires ends { EndsAsModel formula.now (state_of self.trail.items self.learned) }
        ensures { IfOk result (IsEnd formula.now 0) }
    {
        let values = model(alloc, &self.values, formula.variables)?;
        Ok(Found::Model(Vector::from_vec(values)))
    }

    /// What a search answers where a line has the empty clause.
    pub fn refuted(self, formula: &Formula, line: DerivationLine) -> Result<Found, Memory>
        requires at { IsAt formula.now self }
        requires right { IsRight (clauses_of formula.now (state_of self.trail.items self.learned)) line }
        requires empty { line.clause ≡ [] }
        ensures { IfOk result (IsEnd formula.now (length self.moves.items)) }
    {
        Ok(Found::NoModel(self.refutation(line)?))
    }

    /// What a search answers where a clause is false, and nothing was decided.
    pub fn contradicted(
        mut self,
        alloc: Global,
        formula: &Formula,
        conflict: u32,
    ) -> Result<Found, Memory>
        requires small { formula.now.variables ≤ 2 ^ 30 }
        requires at { IsAt formula.now self }
        requires conflict { IsConflicting formula.now self conflict }
        requires undecided { (d : ℕ) → IsDecidedAt self.trail.items d → ⊥ }
        ensures { IfOk result (IsEnd formula.now (length self.moves.items)) }
    {
        let lesson = self.analyze(alloc, formula, conflict)?;
        match lesson.landing {
            None => self.refuted(formula, lesson.line),
            Some(_) => unreachable!(),
        }
    }

    /// How a search ends when the budget is spent.
    pub fn end(mut self, alloc: Global, formula: &Formula) -> Result<Ending, Memory>
        requires at { IsAt formula.now self }
        requires small { formula.now.variables ≤ 2 ^ 30 }
        ensures { IfOk result (IsEnding formula.now (length self.moves.items)) }
    {
        let next = next_of(
            alloc,
            formula,
            &self.learned,
            &self.trail,
            &self.values,
            &self.places,
            &mut self.marks,
        )?;
        match next {
            Next::Model => {
                let values = model(alloc, &self.values, formula.variables)?;
                Ok(Ending::Ended(Found::Model(Vector::from_vec(values))))
            }
            Next::Refuted(line) => Ok(Ending::Ended(Found::NoModel(self.refutation(line)?))),
            _ => Ok(Ending::Spent {
                steps: self.moves,
                lines: self.learned.lines,
            }),
        }
    }
}

// Lists the variables of entries' literals, which leave the trail.
fn list_entries(order: &mut Order, entries: &[Entry]) -> Result<(), AllocError>
    ensures keeps { OnOk result ((v : ℕ) → is_among v order.old.heap.items ≡ true → is_among v order.new.heap.items ≡ true) }
    ensures listed { OnOk result ((x : ℤ) → is_true entries.now x ≡ true → is_among (unsigned_abs x) order.new.heap.items ≡ true) }
{
    for entry in entries {
        order.save_phase(entry.literal);
        order.insert(entry.literal.unsigned_abs())?;
    }
    Ok(())
}

// Takes the marks of entries' literals away.
fn unmark_entries(values: &mut [bool], entries: &[Entry])
    requires { All (λ e. IsLiteral e.literal) entries.now }
    ensures { (x : ℤ) → marked ByKey values.new x ≡ (marked ByKey values.old x && not (is_true entries.now x)) }
{
    for entry in entries {
        unmark(&Places::ByKey, values, entry.literal);
    }
}
