// How the tables are made.
ghost use Rattle.std.specs.Prelude.{◌≡◌, ◌^◌, ◌<◌, ◌≤◌, ◌-◌, ◌+◌, ◌++◌, ℕ, List, EachIndex, IfOk, OnOk, length, slice_index};
ghost use Rattle.measurer_index.specs.occurrences.Places.{AreFirstsFrom, AreGroups, AreNextFrom, AreTables, IsAddedGroup, IsNext};

use fq_core::Memory;
use std::alloc::Global;

/// The first place of each number of a list, and for each place the next one of the same number.
#[derive(Debug, Drop)]
pub(crate) struct Chains {
    pub(crate) firsts: Vec<u32>,
    pub(crate) next: Vec<u32>,
}

/// The places of all numbers, one number after the other, and where those of each number begin. One entry more says where
/// those of the last number end.
#[derive(Debug, Drop)]
pub(crate) struct Groups {
    pub(crate) places: Vec<u32>,
    pub(crate) begins: Vec<usize>,
}

/// A number above each of these.
fn above(numbers: &[u32]) -> usize
    ensures { EachIndex numbers.now (λ k. slice_index numbers.now k < result) }
{
    match numbers.iter().copied().max() {
        None => 0,
        Some(greatest) => greatest as usize + 1,
    }
}

/// The first place of each number, and for each place the next one of the same number. Where there is none, it is the
/// length of the list.
fn chains_of(alloc: Global, numbers: &[u32]) -> Result<Chains, Memory>
    requires { length numbers.now < 2 ^ 32 }
    ensures firsts { IfOk result (λ chains. AreFirstsFrom numbers.now 0 chains.firsts.items) }
    ensures size { IfOk result (λ chains. length chains.next.items ≡ length numbers.now) }
    ensures next { IfOk result (λ chains. AreNextFrom numbers.now 0 chains.next.items) }
{
    let none = numbers.len() as u32;
    let mut firsts = vec![in alloc; none; above(numbers)]?;
    let mut next = vec![in alloc; none; numbers.len()]?;
    for place in (0..numbers.len()).rev() {
        let number = numbers[place] as usize;
        next[place] = firsts[number];
        firsts[number] = place as u32;
    }
    Ok(Chains { firsts, next })
}

/// Adds the places of a number, of which this is the first one.
fn add_chain(
    numbers: &[u32],
    next: &[u32],
    first: usize,
    places: &mut Vec<u32>,
) -> Result<(), Memory>
    requires size { length next.now ≡ length numbers.now }
    requires next { AreNextFrom numbers.now 0 next.now }
    requires fits { length numbers.now < 2 ^ 32 }
    ensures { (x : ℕ) → IsNext numbers.now x 0 first → OnOk result (IsAddedGroup numbers.now x places.old.items places.new.items) }
{
    let mut place = first;
    while place < numbers.len() {
        places.push(place as u32)?;
        place = next[place] as usize;
    }
    Ok(())
}

/// The places of all numbers of a list, by numbers. It takes time and memory in proportion to the length of the list and to
/// its greatest number.
pub(crate) fn groups_of(alloc: Global, numbers: &[u32]) -> Result<Groups, Memory>
    requires { length numbers.now < 2 ^ 32 }
    ensures { IfOk result (λ groups. AreTables numbers.now groups.places.items groups.begins.items) }
{
    let chains = chains_of(alloc, numbers)?;
    let next = chains.next.as_slice();
    let mut places = Vec::with_capacity(alloc, numbers.len())?;
    let mut begins = vec![in alloc; 0usize]?;
    for first in &chains.firsts {
        add_chain(numbers, next, *first as usize, &mut places)?;
        begins.push(places.len())?;
    }
    Ok(Groups { places, begins })
}
