// Keys in the order in which they were added.
ghost use Rattle.std.specs.Prelude.{◌≡◌, ℕ, List, [], ◌∷◌, length, slice_get, Contains, IfOk, OnOk, MatchOption};
ghost use Rattle.unwinder_reach.specs.reached.Searching.{Extends, IsAdded};

use fq_core::Memory;
use indexmap::IndexSet;
use std::alloc::Global;
use std::marker::Model;

/// Different keys, each numbered by its place from 0, which contracts see as a list.
#[derive(Drop)]
pub(crate) struct Keys {
    set: IndexSet<Vec<u32>>,
}

impl Model for Keys {
    ghost use Rattle.std.specs.Prelude.{List, ℕ, map};

    ghost Value = { List (List ℕ) };

    ghost view = { λ k. map (λ v. v.items) k.set.keys };
}

impl Keys {
    pub(crate) fn new(alloc: Global) -> Keys
        ensures { result ≡ [] }
    {
        Keys {
            set: IndexSet::new(alloc),
        }
    }

    pub(crate) fn len(&self) -> usize
        ensures { result ≡ length self.now }
    {
        self.set.len()
    }

    /// Adds a key at the end, unless it is there, and tells whether it did.
    pub(crate) fn add(&mut self, key: Vec<u32>) -> Result<bool, Memory>
        ensures { IfOk result (λ added. IsAdded added self.old key.items self.new) }
    {
        let (_, added) = self.set.insert_full(key)?;
        Ok(added)
    }

    /// The number of a key, which is added at the end unless it is there.
    pub(crate) fn place(&mut self, key: Vec<u32>) -> Result<usize, Memory>
        ensures place { IfOk result (λ n. slice_get self.new n ≡ Some key.items) }
        ensures extends { OnOk result (Extends self.old self.new) }
    {
        let (number, _added) = self.set.insert_full(key)?;
        Ok(number)
    }

    /// The first word of the key of a number.
    pub(crate) fn first_word(&self, number: usize) -> u32
        ensures { (word : ℕ) (rest : List ℕ) → slice_get self.now number ≡ Some (word ∷ rest) → result ≡ word }
    {
        match self.set.get_index(number) {
            None => 0,
            Some(key) => match key.first() {
                None => 0,
                Some(word) => *word,
            },
        }
    }

    /// The number of a key.
    pub(crate) fn number_of(&self, key: &Vec<u32>) -> Option<usize>
        ensures { MatchOption result (¬ Contains self.now key.now.items) (λ n. slice_get self.now n ≡ Some key.now.items) }
    {
        self.set.get_index_of(key)
    }
}
