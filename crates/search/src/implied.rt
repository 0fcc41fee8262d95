// Which literals of a clause its others imply, by the clauses that implied their negations (Sörensson and Biere 2009, the
// recursive minimisation of MiniSat). No contract says what is found: it is advice, by which minimizing.rt resolves step by
// step.
ghost use Rattle.std.specs.Prelude.{◌≡◌};

use crate::trail::Entry;
use cnf::literal_marks::{Places, is_marked};
use cnf::{Derivation, Formula, clause_before, literal_key};
use std::alloc::{AllocError, Global};

/// A marked clause, which the trail makes false.
#[derive(Clone, Copy)]
pub(crate) struct Falsified<'a> {
    pub marks: &'a [bool],
    pub places: &'a [u32],
    pub formula: &'a Formula,
    pub learned: &'a Derivation,
    pub trail: &'a [Entry],
}

impl<'a> Falsified<'a> {
    // Where the negation of a literal stands on the trail.
    fn place_of(self, literal: i32) -> Option<usize> {
        let place = self.places.get(literal_key(literal.wrapping_neg()))?;
        Some(*place as usize)
    }

    // How many entries stand before the first decision.
    fn first_decision(self) -> usize {
        for (place, entry) in self.trail.iter().enumerate() {
            if entry.reason.is_none() {
                return place;
            }
        }
        self.trail.len()
    }
}

// What is known of an entry of the trail: whether the clause's literals imply it.
#[derive(Clone, Copy)]
enum Verdict {
    Unknown,
    Implied,
    Free,
    // It stands before the first decision, so the formula implies it. It stays in the clause: a line that is resolved with
    // what a goal alone asks for is no lesson for others.
    Early,
}

// An entry whose clause is looked at, and how many of that clause's literals are done.
#[derive(Clone, Copy)]
struct Visited {
    place: usize,
    looked: usize,
}

enum Step {
    Ends(Verdict),
    // Another entry comes first, at this place; so many literals are done.
    Waits { place: usize, looked: usize },
}

#[derive(Drop)]
struct Explored {
    // The place of the first decision.
    first: usize,
    // From there on, by place.
    verdicts: Vec<Verdict>,
    // Each entry waits for the next one.
    path: Vec<Visited>,
    // The places that are implied.
    implied: Vec<usize>,
}

impl Explored {
    fn verdict(&self, place: usize) -> Verdict {
        if place < self.first {
            return Verdict::Early;
        }
        match self.verdicts.get(place - self.first) {
            Some(verdict) => *verdict,
            None => Verdict::Free,
        }
    }

    fn set_verdict(&mut self, place: usize, verdict: Verdict)
        ensures { self.new.path ≡ self.old.path }
    {
        if place >= self.first && place - self.first < self.verdicts.len() {
            self.verdicts[place - self.first] = verdict;
        }
    }

    // Looks at the clause that implied an entry, from one of its literals on.
    fn look(&self, falsified: Falsified<'_>, place: usize, looked: usize) -> Step {
        if place >= falsified.trail.len() {
            return Step::Ends(Verdict::Free);
        }
        let entry = falsified.trail[place];
        let Some(number) = entry.reason else {
            return Step::Ends(Verdict::Free);
        };
        let learned = falsified.learned;
        let reason = clause_before(falsified.formula, learned, learned.lines.len(), number);
        let Some(clause) = reason else {
            return Step::Ends(Verdict::Free);
        };
        let literals = clause.literals();
        for at in looked..literals.len() {
            let literal = literals[at];
            if literal == entry.literal || is_marked(&Places::ByKey, falsified.marks, literal) {
                continue;
            }
            let Some(other) = falsified.place_of(literal) else {
                return Step::Ends(Verdict::Free);
            };
            match self.verdict(other) {
                Verdict::Implied | Verdict::Early => {}
                Verdict::Free => return Step::Ends(Verdict::Free),
                Verdict::Unknown => return Step::Waits {
                    place: other,
                    looked: at,
                },
            }
        }
        Step::Ends(Verdict::Implied)
    }

    // The last entry of the path is free, and so is each that waits for it.
    fn end(&mut self) {
        while let Some(visited) = self.path.pop() {
            self.set_verdict(visited.place, Verdict::Free);
        }
    }

    // Finds out about the entry at a place.
    fn explore(&mut self, falsified: Falsified<'_>, place: usize) -> Result<(), AllocError> {
        self.path.push(Visited { place, looked: 0 })?;
        for _ in 0..2 * self.verdicts.len() {
            let Some(visited) = self.path.pop() else {
                return Ok(());
            };
            match self.look(falsified, visited.place, visited.looked) {
                Step::Ends(Verdict::Implied) => {
                    self.set_verdict(visited.place, Verdict::Implied);
                    self.implied.push(visited.place)?;
                }
                Step::Ends(_) => {
                    self.set_verdict(visited.place, Verdict::Free);
                    self.end();
                }
                Step::Waits {
                    place: other,
                    looked,
                } => {
                    self.path.push(Visited {
                        place: visited.place,
                        looked,
                    })?;
                    self.path.push(Visited {
                        place: other,
                        looked: 0,
                    })?;
                }
            }
        }
        self.end();
        Ok(())
    }
}

/// The places of entries whose negations its other literals imply, from the last one on: of the clause itself those of
/// `found`, all before `start`, and such that take their place when these are resolved away.
pub(crate) fn implied_places(
    alloc: Global,
    falsified: Falsified<'_>,
    found: &[i32],
    start: usize,
) -> Result<Vec<usize>, AllocError> {
    let first = falsified.first_decision();
    let mut explored = Explored {
        first,
        verdicts: vec![in alloc; Verdict::Unknown; start.saturating_sub(first)]?,
        path: Vec::new(alloc),
        implied: Vec::new(alloc),
    };
    for literal in found {
        let Some(place) = falsified.place_of(*literal) else {
            continue;
        };
        if matches!(explored.verdict(place), Verdict::Unknown) {
            explored.explore(falsified, place)?;
        }
    }
    let mut implied = explored.implied;
    implied.sort_unstable();
    implied.reverse();
    Ok(implied)
}
