// Numbers that look drawn.

/// A number that looks drawn, the same for the same two: a step of the generator xorshift64* (Marsaglia, Xorshift RNGs, 2003;
/// Vigna, An experimental exploration of Marsaglia's xorshift generators, scrambled, 2016) from a mixture of both.
pub(crate) fn drawn(number: u64, slot: u64) -> u64 {
    let mixed = number
        .wrapping_mul(0x9e37_79b9_7f4a_7c15)
        .wrapping_add(slot.wrapping_mul(0xbf58_476d_1ce4_e5b9))
        .wrapping_add(0x94d0_49bb_1331_11eb);
    let first = mixed ^ (mixed >> 12);
    let second = first ^ (first << 25);
    let third = second ^ (second >> 27);
    third.wrapping_mul(2_685_821_657_736_338_717)
}
