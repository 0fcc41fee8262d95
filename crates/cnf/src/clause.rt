// Clauses.
ghost use Rattle.std.specs.Prelude.{◌≡◌, ◌≤◌, ◌<◌, ◌^◌, ◌==◌, ◌↔◌, [], ℤ, All, IsTrue, IfOk, map};
ghost use Rattle.std.specs.List.{list_any};
ghost use Rattle.std.specs.Bool.{OnTrue};
ghost use Rattle.std.specs.List.Sorted.{IsSorted};
ghost use Rattle.std.specs.Ordering.{nat_cmp};
ghost use Rattle.cnf.specs.Clauses.{IsClause, IsLiteral, has_literal, literal_key as key_of};

use crate::literal::{literal_key, literal_of_key};
use containers::{Same, TryClone, same_items};
use fq_core::Memory;
use smallvec::SmallVec;
use std::alloc::{AllocError, Global};
use std::marker::Model;

/// A clause, the disjunction of its literals. Contracts see it as the list of them, which rises by variable, the
/// positive one first, without repeats.
#[derive(Debug, Drop)]
pub struct Clause {
    literals: SmallVec<i32, 4>,
}

impl Model for Clause {
    ghost use Rattle.std.specs.Prelude.{List, ℤ};
    ghost use Rattle.cnf.specs.Clauses.{IsClause};

    ghost Value = { List ℤ };

    ghost view = { λ c. c.literals.items };

    ghost invariant = { λ c. IsClause c.literals.items };
}

impl Clause {
    /// The clause of these literals, in whatever order and however often each is there.
    pub fn new(alloc: Global, literals: &[i32]) -> Result<Clause, Memory>
        requires { All IsLiteral literals.now }
        ensures clause { IfOk result IsClause }
        ensures literals { IfOk result (λ c. (x : ℤ) → has_literal c x ≡ has_literal literals.now x) }
    {
        let mut keys = keys_of(alloc, literals)?;
        keys.sort()?;
        clause_of_keys(alloc, &keys)
    }

    /// The clause of literals that rise already.
    pub fn from_rising(alloc: Global, literals: &[i32]) -> Result<Clause, Memory>
        requires { IsClause literals.now }
        ensures { IfOk result (λ c. c ≡ literals.now) }
    {
        let literals = SmallVec::from_slice(alloc, literals)?;
        Ok(Clause { literals })
    }

    /// Its literals, in order. It takes no memory.
    pub fn literals(&self) -> &[i32]
        ensures value { result.now ≡ self.now }
        ensures clause { IsClause result.now }
    {
        self.literals.as_slice()
    }

    /// Whether a literal is in it.
    pub fn contains(&self, literal: i32) -> bool
        ensures value { result ≡ has_literal self.now literal }
        ensures literal { OnTrue result (IsLiteral literal) }
    {
        holds(self.literals(), literal)
    }

    /// Whether it has no literal.
    pub fn is_empty(&self) -> bool
        ensures { IsTrue result ↔ (self.now ≡ []) }
    {
        self.literals().is_empty()
    }
}

// Whether a literal is among these.
fn holds(literals: &[i32], literal: i32) -> bool
    ensures { result ≡ has_literal literals.now literal }
{
    literals.contains(&literal)
}

// The keys of literals.
fn keys_of(alloc: Global, literals: &[i32]) -> Result<Vec<usize>, AllocError>
    ensures { IfOk result (λ keys. keys.items ≡ map key_of literals.now) }
{
    literals
        .iter()
        .map(|literal| literal_key(*literal))
        .collect(alloc)
}

// The clause of the literals with these keys.
fn clause_of_keys(alloc: Global, keys: &[usize]) -> Result<Clause, Memory>
    requires keys { All (λ key. (2 ≤ key) × (key < 2 ^ 32)) keys.now }
    requires sorted { IsSorted nat_cmp keys.now }
    ensures clause { IfOk result IsClause }
    ensures literals { IfOk result (λ c. (x : ℤ) → has_literal c x ≡ list_any (λ key. key == key_of x) keys.now) }
{
    let mut literals = SmallVec::new(alloc);
    let mut last = 0;
    for key in keys {
        if *key > last {
            literals.push(literal_of_key(*key))?;
            last = *key;
        }
    }
    Ok(Clause { literals })
}

impl Same for Clause {
    fn same(&self, other: &Clause) -> bool {
        same_items(self.literals(), other.literals())
    }
}

impl TryClone for Clause {
    fn try_clone(&self, alloc: Global) -> Result<Clause, AllocError> {
        let literals = SmallVec::from_slice(alloc, self.literals())?;
        Ok(Clause { literals })
    }
}
