ghost use Rattle.std.specs.Prelude.{◌≡◌, ◌==◌, IfOk, length};
ghost use Rattle.std.specs.List.{list_any};
ghost use Rattle.std.specs.List.Sorted.{IsStrictlyIncreasing};

use containers::{TryClone, Vector};
use std::alloc::{AllocError, Global};
use std::marker::Model;
use std::rc::Rc;

/// A set of numbers that several letters may share. Contracts see the rising list of its members.
#[derive(Debug, Drop)]
pub struct NumberSet {
    numbers: Rc<Vec<u32>>,
}

impl Model for NumberSet {
    ghost use Rattle.std.specs.Prelude.{ℕ, List};
    ghost use Rattle.std.specs.List.Sorted.{IsStrictlyIncreasing};

    ghost Value = { List ℕ };

    ghost view = { λ it. it.numbers.value.items };

    ghost invariant = { λ it. IsStrictlyIncreasing it.numbers.value.items };
}

impl NumberSet {
    /// The set of these numbers, which rise.
    pub fn new(alloc: Global, numbers: Vec<u32>) -> Result<NumberSet, AllocError>
        requires { IsStrictlyIncreasing numbers.items }
        ensures { IfOk result (λ set. set ≡ numbers.items) }
    {
        let numbers = Rc::new(alloc, numbers)?;
        Ok(NumberSet { numbers })
    }

    /// Whether the number is a member, by binary search.
    #[tactic(auto, using(crate::proofs::Members::found))]
    pub fn contains(&self, number: u32) -> bool
        ensures { result ≡ list_any (λ member. member == number) self.now }
    {
        self.numbers.binary_search(&number).is_ok()
    }

    /// The members, in rising order.
    pub fn as_slice(&self) -> &[u32]
        ensures members { result.now ≡ self.now }
        ensures rise { IsStrictlyIncreasing self.now }
    {
        self.numbers.as_slice()
    }
}

impl TryClone for NumberSet {
    /// Another owner of the same set: no member is copied.
    fn try_clone(&self, _alloc: Global) -> Result<NumberSet, AllocError> {
        let numbers = self.numbers.clone()?;
        Ok(NumberSet { numbers })
    }
}
