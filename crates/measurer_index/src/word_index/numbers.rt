// Sets of numbers that are filled and cleared often.
ghost use Rattle.std.specs.Prelude.{◌≡◌, [], ℕ, true, false, IfOk, OnOk, slice_index_or};
ghost use Rattle.measurer_index.specs.word_index.Numbers.{Adds, IsRisingOf};

use fq_core::Memory;
use std::alloc::Global;
use std::marker::Model;

/// A set of numbers, which are rather small. To clear it costs as much as it has members. Contracts see the list of the
/// members.
#[derive(Debug, Drop)]
pub struct Numbers {
    /// Whether a number is known to be a member.
    known: Vec<bool>,
    members: Vec<u32>,
}

impl Model for Numbers {
    ghost use Rattle.std.specs.Prelude.{◌≡◌, List, ℕ, true, false, slice_index_or};
    ghost use Rattle.std.specs.List.{Contains};

    ghost Value = { List ℕ };

    ghost view = { λ it. it.members.items };

    ghost invariant = { λ it. (n : ℕ) → slice_index_or it.known.items n false ≡ true → Contains it.members.items n };
}

impl Numbers {
    /// An empty set, with a mark for each number up to a greatest one. Larger ones may be added too, at a greater cost.
    pub fn new(alloc: Global, greatest: usize) -> Result<Numbers, Memory>
        ensures { IfOk result (λ numbers. numbers ≡ []) }
    {
        let mut known = Vec::new(alloc);
        for _ in 0..greatest {
            known.push(false)?;
        }
        known.push(false)?;
        Ok(Numbers {
            known,
            members: Vec::new(alloc),
        })
    }

    /// Takes all members away.
    pub fn clear(&mut self)
        ensures { self.new ≡ [] }
    {
        while let Some(member) = self.members.pop() {
            forget(&mut self.known, member);
        }
    }

    /// Adds a number.
    pub fn add(&mut self, number: u32) -> Result<(), Memory>
        ensures { OnOk result (Adds (λ n. n ≡ number) self.old self.new) }
    {
        let at = number as usize;
        if at < self.known.len() {
            if self.known[at] {
                return Ok(());
            }
            self.members.push(number)?;
            self.known[at] = true;
            return Ok(());
        }
        self.members.push(number)?;
        Ok(())
    }

    /// The members in rising order, each once.
    pub fn rising(&self, alloc: Global) -> Result<Vec<u32>, Memory>
        ensures { IfOk result (λ rising. IsRisingOf self.now rising.items) }
    {
        let mut rising = Vec::from_slice(alloc, &self.members)?;
        rising.sort_unstable();
        rising.dedup();
        Ok(rising)
    }
}

/// Takes the mark of a number away.
fn forget(known: &mut Vec<bool>, number: u32)
    ensures { (n : ℕ) → slice_index_or known.new.items n false ≡ true → (slice_index_or known.old.items n false ≡ true) × ¬ (n ≡ number) }
{
    let at = number as usize;
    if at < known.len() {
        known[at] = false;
    }
}
