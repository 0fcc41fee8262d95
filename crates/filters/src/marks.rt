// Parts of a control flow automaton, as tables of marks.
ghost use Rattle.std.specs.Prelude.{◌≡◌, ◌<◌, ◌^◌, ℕ, length, IfOk, true, false, nat_lt};
ghost use Rattle.std.specs.List.Sorted.{IsStrictlyIncreasing};
ghost use Rattle.filters.specs.Parts.{is_marked, is_among};
ghost use Rattle.filters.specs.Combining.{combined_mark};

use fq_core::Memory;
use std::alloc::Global;

/// Which nodes and which edges of a graph are in a part of it, by their numbers.
#[derive(Debug, Drop)]
pub(crate) struct Marks {
    pub nodes: Vec<bool>,
    pub edges: Vec<bool>,
}

/// How two tables of marks make a third.
#[derive(Clone, Copy, Debug, PartialEq, Eq)]
pub(crate) enum Combination {
    /// What is in the first and not in the second.
    Without,
    /// What is in either.
    Either,
    /// What is in both.
    Both,
}

fn combined_mark(combination: Combination, a: bool, b: bool) -> bool
    ensures { result ≡ combined_mark combination a b }
{
    match combination {
        Combination::Without => a && !b,
        Combination::Either => a || b,
        Combination::Both => a && b,
    }
}

/// The marks that two tables of one length make.
#[tactic(auto, using(crate::proofs::MarksLaws::each_more, crate::proofs::MarksLaws::combined_is))]
pub(crate) fn combined(
    alloc: Global,
    combination: Combination,
    a: &[bool],
    b: &[bool],
) -> Result<Vec<bool>, Memory>
    requires { length a.now ≡ length b.now }
    ensures size { IfOk result (λ marks. length marks.items ≡ length a.now) }
    ensures each { IfOk result (λ marks. is_marked marks.items ≡ (λ k. combined_mark combination (is_marked a.now k) (is_marked b.now k))) }
{
    let mut marks = Vec::new(alloc);
    for (i, mark) in a.iter().enumerate() {
        marks.push(combined_mark(combination, *mark, b[i]))?;
    }
    Ok(marks)
}

/// So many marks, each of them set.
#[tactic(auto, using(crate::proofs::MarksLaws::each_more, crate::proofs::MarksLaws::all_is))]
pub(crate) fn all_marked(alloc: Global, count: usize) -> Result<Vec<bool>, Memory>
    ensures size { IfOk result (λ marks. length marks.items ≡ count) }
    ensures each { IfOk result (λ marks. is_marked marks.items ≡ (λ k. nat_lt k count)) }
{
    let mut marks = Vec::new(alloc);
    for _ in 0..count {
        marks.push(true)?;
    }
    Ok(marks)
}

/// So many marks, of which none is set.
pub(crate) fn none_marked(alloc: Global, count: usize) -> Result<Vec<bool>, Memory>
    ensures size { IfOk result (λ marks. length marks.items ≡ count) }
    ensures each { IfOk result (λ marks. (k : ℕ) → is_marked marks.items k ≡ false) }
{
    let mut marks = Vec::new(alloc);
    for _ in 0..count {
        marks.push(false)?;
    }
    Ok(marks)
}

/// Marks of these numbers, all below the count.
pub(crate) fn marked(alloc: Global, numbers: &[u32], count: usize) -> Result<Vec<bool>, Memory>
    requires { (k : ℕ) → is_among numbers.now k ≡ true → k < count }
    ensures size { IfOk result (λ marks. length marks.items ≡ count) }
    ensures each { IfOk result (λ marks. is_marked marks.items ≡ is_among numbers.now) }
{
    let mut marks = none_marked(alloc, count)?;
    for number in numbers {
        marks[*number as usize] = true;
    }
    Ok(marks)
}

/// The numbers that are marked, rising.
pub(crate) fn numbers(alloc: Global, marks: &[bool]) -> Result<Vec<u32>, Memory>
    requires { length marks.now < 2 ^ 32 }
    ensures rise { IfOk result (λ numbers. IsStrictlyIncreasing numbers.items) }
    ensures each { IfOk result (λ numbers. is_among numbers.items ≡ is_marked marks.now) }
{
    let mut numbers = Vec::new(alloc);
    for (i, mark) in marks.iter().enumerate() {
        if *mark {
            numbers.push(i as u32)?;
        }
    }
    Ok(numbers)
}
