// The values that programs often test for.
use fq_core::Memory;
use std::alloc::Global;

/// Small numbers, and those at the ends of the ranges of kinds.
const COMMON: [u64; 26] = [
    0,
    1,
    2,
    3,
    u64::MAX,
    4,
    5,
    7,
    8,
    10,
    16,
    100,
    127,
    128,
    255,
    256,
    32_767,
    32_768,
    65_535,
    65_536,
    0x7fff_ffff,
    0x8000_0000,
    0xffff_ffff,
    0x7fff_ffff_ffff_ffff,
    0x8000_0000_0000_0000,
    0xffff_ffff_ffff_fffe,
];

/// Adds a value that isn't there.
fn add(values: &mut Vec<u64>, value: u64) -> Result<(), Memory> {
    if !values.contains(&value) {
        values.push(value)?;
    }
    Ok(())
}

/// Adds a value and its neighbours.
fn add_near(values: &mut Vec<u64>, value: u64) -> Result<(), Memory> {
    add(values, value)?;
    add(values, value.wrapping_add(1))?;
    add(values, value.wrapping_sub(1))
}

/// Adds the sums and the products of a constant and of others.
fn add_pairs(values: &mut Vec<u64>, constant: u64, others: &[u64]) -> Result<(), Memory> {
    for other in others {
        add(values, constant.wrapping_add(*other))?;
        add_near(values, constant.wrapping_mul(*other))?;
    }
    Ok(())
}

/// The values of a row: common ones, the constants with their neighbours, and sums and products of two of the first
/// constants, which are given apart. Each stands there once.
pub(crate) fn values_of(
    alloc: Global,
    constants: &[u64],
    first: &[u64],
) -> Result<Vec<u64>, Memory> {
    let mut values = Vec::new(alloc);
    for value in &COMMON {
        add(&mut values, *value)?;
    }
    add_constants(&mut values, constants)?;
    for constant in first {
        add_pairs(&mut values, *constant, first)?;
    }
    Ok(values)
}

/// Adds constants with their neighbours.
fn add_constants(values: &mut Vec<u64>, constants: &[u64]) -> Result<(), Memory> {
    for constant in constants {
        add_near(values, *constant)?;
    }
    Ok(())
}
