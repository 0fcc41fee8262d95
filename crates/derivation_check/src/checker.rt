// The checker.
ghost use Rattle.std.specs.Prelude.{◌≡◌, ◌<◌, ◌^◌, ◌-◌, ◌↔◌, IsTrue, IfOk, length};
ghost use Rattle.cnf.specs.Checks.{EndsEmpty};
ghost use Rattle.derivation_check.specs.Marks.{HasPlaces};
ghost use Rattle.derivation_check.specs.Verdicts.{IsVerdict};

use crate::line::is_right;
use crate::table::places_for;
use crate::verdict::Verdict;
use cnf::literal_marks::{Places, clear};
use cnf::{Derivation, Formula};
use fq_core::Memory;
use std::alloc::Global;
use std::marker::Model;

/// A formula and a derivation that is to be checked over it, with all the memory that this takes.
#[derive(Drop)]
pub struct Checker<'a> {
    formula: &'a Formula,
    derivation: &'a Derivation,
    places: Places,
    marks: Vec<bool>,
}

impl<'a> Model for Checker<'a> {
    ghost use Rattle.std.specs.Prelude.{◌<◌, ◌^◌, length};
    ghost use Rattle.derivation_check.specs.Tasks.{Task};
    ghost use Rattle.derivation_check.specs.Marks.{HasPlaces};

    ghost Value = { Task };

    ghost view = { λ c. record { formula = c.formula.now; derivation = c.derivation.now } };

    ghost invariant = { λ c.
        HasPlaces c.places (length c.marks.items) c.formula.now c.derivation.now × (length c.derivation.now.lines < 2 ^ 32) };
}

impl<'a> Checker<'a> {
    /// Takes the memory: a table of marks, which is at most a small multiple of what is checked, whatever the numbers of
    /// its variables.
    pub fn prepare(
        alloc: Global,
        formula: &'a Formula,
        derivation: &'a Derivation,
    ) -> Result<Checker<'a>, Memory>
        requires { length derivation.now.lines < 2 ^ 32 }
        ensures { IfOk result (λ checker. checker ≡ record { formula = formula.now; derivation = derivation.now }) }
    {
        let (places, size) = places_for(alloc, formula, derivation)?;
        let marks = vec![in alloc; false; size]?;
        Ok(Checker {
            formula,
            derivation,
            places,
            marks,
        })
    }

    /// The verdict on the derivation. It takes no memory, and time linear in the clauses that are resolved, with a binary
    /// search for each literal where the variables are numbered with great gaps.
    pub fn check(&mut self) -> Verdict
        ensures verdict { IsVerdict self.old.formula self.old.derivation result }
        ensures same { self.new ≡ self.old }
    {
        verdict_of(&self.places, &mut self.marks, self.formula, self.derivation)
    }
}

fn verdict_of(
    places: &Places,
    marks: &mut [bool],
    formula: &Formula,
    derivation: &Derivation,
) -> Verdict
    requires places { HasPlaces places.now (length marks.old) formula.now derivation.now }
    requires lines { length derivation.now.lines < 2 ^ 32 }
    ensures { IsVerdict formula.now derivation.now result }
{
    clear(marks);
    for (at, line) in derivation.lines.iter().enumerate() {
        if !is_right(places, marks, formula, derivation, at, line) {
            return Verdict::BadStep {
                line: at as u32 + 1,
            };
        }
    }
    if ends_empty(derivation) {
        Verdict::Yes
    } else {
        Verdict::NoEmptyClause
    }
}

fn ends_empty(derivation: &Derivation) -> bool
    ensures { IsTrue result ↔ EndsEmpty derivation.now }
{
    match derivation.lines.last() {
        Some(line) => line.clause.is_empty(),
        None => false,
    }
}
