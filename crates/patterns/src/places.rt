ghost use Rattle.std.specs.Prelude.{◌≡◌, ◌<◌, ◌≤◌, ◌+◌, false, IfOk, All, ℕ, ◌==◌, slice_index_or, length, count_by};
ghost use Rattle.patterns.specs.Places.{union};

use fq_core::Memory;
use std::alloc::Global;

/// So many places, none of them in the set.
pub(crate) fn no_places(alloc: Global, count: usize) -> Result<Vec<bool>, Memory>
    ensures size { IfOk result (λ places. length places.items ≡ count) }
    ensures none { IfOk result (λ places. All (λ place. place ≡ false) places.items) }
{
    let mut places = Vec::new(alloc);
    for _ in 0..count {
        places.push(false)?;
    }
    Ok(places)
}

/// So many places, of which this one is in the set.
#[tactic(auto, using(crate::proofs::PlacesLaws::each_more))]
pub(crate) fn one_place(alloc: Global, count: usize, at: usize) -> Result<Vec<bool>, Memory>
    ensures size { IfOk result (λ places. length places.items ≡ count) }
    ensures each { IfOk result (λ places. (k : ℕ) → k < count → slice_index_or places.items k false ≡ (k == at)) }
{
    let mut places = Vec::new(alloc);
    for place in 0..count {
        places.push(place == at)?;
    }
    Ok(places)
}

/// The places of either set.
#[tactic(auto, using(crate::proofs::PlacesLaws::union_more, std::proofs::Common::take_all))]
pub(crate) fn either_places(alloc: Global, a: &[bool], b: &[bool]) -> Result<Vec<bool>, Memory>
    requires { length a.now ≡ length b.now }
    ensures { IfOk result (λ places. places.items ≡ union a.now b.now) }
{
    let mut places = Vec::new(alloc);
    for (i, x) in a.iter().enumerate() {
        places.push(*x | b[i])?;
    }
    Ok(places)
}

/// How many places the set has.
pub(crate) fn place_count(places: &[bool]) -> usize
    ensures { result ≡ count_by (λ place. place) places.now }
{
    places.iter().filter(|place| **place).count()
}
