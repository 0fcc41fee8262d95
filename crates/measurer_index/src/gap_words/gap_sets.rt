// The sets of edges that gaps go over.
ghost use Rattle.std.specs.Prelude.{◌≡◌, [], IfSome, slice_index_or};

use containers::{TryClone, Vector};
use fq_core::Memory;
use patterns::{Letter, NumberSet, Pattern};
use std::alloc::Global;
use std::marker::Model;

/// The different sets of edges that the gaps of several words go over. Contracts see the list of them.
#[derive(Debug, Drop)]
pub struct GapSets {
    sets: Vector<NumberSet>,
}

impl Model for GapSets {
    ghost use Rattle.std.specs.Prelude.{ℕ, List};

    ghost Value = { List (List ℕ) };

    ghost view = { λ it. it.sets };
}

impl GapSets {
    ghost use Rattle.std.specs.Prelude.{◌≡◌, []};

    /// No sets.
    pub fn new(alloc: Global) -> GapSets
        ensures { result ≡ [] }
    {
        GapSets {
            sets: Vector::new(alloc),
        }
    }

    /// Adds the sets of edges that repetitions of this pattern go over, except those that are there.
    ///
    /// # Errors
    ///
    /// Want of memory alone.
    pub fn add(&mut self, alloc: Global, pattern: &Pattern<Letter>) -> Result<(), Memory> {
        match pattern {
            Pattern::Dot(a, b) => {
                self.add(alloc, a)?;
                self.add(alloc, b)
            }
            Pattern::Repeat { body, .. } => self.add_body(alloc, body),
            _ => Ok(()),
        }
    }

    /// Adds the set of edges that this is, if it is one that isn't there.
    fn add_body(&mut self, alloc: Global, body: &Pattern<Letter>) -> Result<(), Memory> {
        let Pattern::Letter(Letter::Edges(edges)) = body else {
            return Ok(());
        };
        if self.place_of(edges).is_none() {
            self.sets.push(edges.try_clone(alloc)?)?;
        }
        Ok(())
    }

    /// The place of a set among them.
    pub(crate) fn place_of(&self, set: &NumberSet) -> Option<usize>
        ensures { IfSome result (λ place. slice_index_or self.now place [] ≡ set.now) }
    {
        for (place, own) in self.sets.as_slice().iter().enumerate() {
            if own.as_slice() == set.as_slice() {
                return Some(place);
            }
        }
        None
    }

    /// The sets.
    pub(crate) fn as_slice(&self) -> &[NumberSet]
        ensures { result.now ≡ self.now }
    {
        self.sets.as_slice()
    }
}
