// What is kept of lessons.
ghost use Rattle.std.specs.Prelude.{◌≡◌, List};
ghost use Rattle.circuit.specs.declared.lit.Gate.{Gate as OneGate};
ghost use Rattle.search_lemmas.specs.Holding.{HoldsAlways};
ghost use Rattle.search_lemmas.specs.Store.{Hold};

use cnf::Clause;
use containers::Same;
use fq_core::Memory;
use std::alloc::Global;

/// So many lessons are kept at most.
const MOST: usize = 1000;

/// Clauses over the wires of a circuit, each of which holds in every world.
#[derive(Drop)]
pub struct Lessons {
    pub(crate) clauses: Vec<Clause>,
    /// Of each the number of the refutation that last stood on it, or from which it was learned.
    pub(crate) used: Vec<u64>,
    /// How many refutations were learned from.
    pub(crate) refutations: u64,
}

impl Lessons {
    /// No lessons yet.
    pub fn new(alloc: Global) -> Lessons
        ensures { (gates : List OneGate) → Hold gates result }
    {
        Lessons {
            clauses: Vec::new(alloc),
            used: Vec::new(alloc),
            refutations: 0,
        }
    }

    /// Whether there are none.
    pub(crate) fn is_empty(&self) -> bool {
        self.clauses.is_empty()
    }

    /// Notes that the present refutation stands on a lesson.
    pub(crate) fn note(&mut self, place: usize)
        ensures { self.new.clauses ≡ self.old.clauses }
    {
        if place < self.used.len() {
            self.used[place] = self.refutations;
        }
    }

    /// Keeps a clause that holds in every world, unless it is a lesson already. Where there are 1,000 the one goes that was of
    /// no use for longest.
    pub(crate) fn keep(&mut self, clause: Clause) -> Result<(), Memory>
        ensures { (gates : List OneGate) → Hold gates self.old → HoldsAlways gates clause
            → Hold gates self.new }
    {
        for lesson in self.clauses.iter() {
            if lesson.same(&clause) {
                return Ok(());
            }
        }
        if self.clauses.len() < MOST {
            self.used.push(self.refutations)?;
            self.clauses.push(clause)?;
            return Ok(());
        }
        let place = oldest(&self.used);
        if place < self.clauses.len() {
            self.note(place);
            self.clauses[place] = clause;
        }
        Ok(())
    }
}

/// The first place of the least number.
fn oldest(used: &[u64]) -> usize {
    let mut place = 0;
    let mut least = u64::MAX;
    for (at, number) in used.iter().enumerate() {
        if *number < least {
            least = *number;
            place = at;
        }
    }
    place
}
