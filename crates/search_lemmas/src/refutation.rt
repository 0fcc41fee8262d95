// The refutation of a goal's formula.
use cnf::{Derivation, Formula};

/// The refutation of a goal's formula, behind whose own clauses lessons may stand.
#[derive(Clone, Copy)]
pub struct Refutation<'a> {
    /// The variables of wires, first those of the circuit's.
    pub variable: &'a [Option<u32>],
    pub formula: &'a Formula,
    /// The places, in their store, of the lessons behind the goal's own clauses.
    pub places: &'a [usize],
    pub derivation: &'a Derivation,
}

impl<'a> Refutation<'a> {
    /// How many clauses are the goal's own.
    pub(crate) fn own_count(&self) -> usize {
        self.formula.clauses.len().saturating_sub(self.places.len())
    }

    /// The place, in the store, of the lesson at a place of the formula, if one stands there.
    pub(crate) fn lesson_at(&self, place: usize) -> Option<usize> {
        let own = self.own_count();
        if place < own || place - own >= self.places.len() {
            return None;
        }
        Some(self.places[place - own])
    }
}
