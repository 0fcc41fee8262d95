// Numbers that leave a remainder.
use fq_core::Memory;
use std::alloc::Global;

/// The numbers that leave a remainder when they are divided by a modulus: from the remainder on in steps of the modulus.
#[derive(Clone, Copy)]
pub(crate) struct Progression {
    remainder: u64,
    modulus: u64,
}

impl Progression {
    /// The number at a place, counted from 0; past 2^64 the numbers go round.
    pub(crate) fn at(self, place: u64) -> u64 {
        self.remainder
            .wrapping_add(self.modulus.wrapping_mul(place))
    }
}

/// The progression of two constants: the smaller one is the remainder. There is none of 0 and 1, which is all numbers.
fn progression_of(first: u64, second: u64) -> Option<Progression> {
    let modulus = first.max(second);
    if modulus < 2 {
        return None;
    }
    Some(Progression {
        remainder: first.min(second),
        modulus,
    })
}

/// The progressions of each two constants that follow one another.
pub(crate) fn progressions_of(
    alloc: Global,
    constants: &[u64],
) -> Result<Vec<Progression>, Memory> {
    let mut progressions = Vec::new(alloc);
    for (first, second) in constants.iter().zip(constants.iter().skip(1)) {
        if let Some(progression) = progression_of(*first, *second) {
            progressions.push(progression)?;
        }
    }
    Ok(progressions)
}
