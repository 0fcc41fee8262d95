//! Laws of the definitions in specs/. Each function does nothing: its contract is the law.
ghost use Rattle.goal_formula_laws.specs.formula_laws.Laws.{UnitsHold, UnitsKeep, UnitsRefuted, HighestBitOfRows, HighestBitDecides, NumberOfLowBits, LowBitsOfNumber, FirstBitDecides, LowerIsBefore, FewerBits};

/// A formula with unit clauses is satisfied exactly where the formula is, and all their literals are true.
pub fn units_hold()
    ensures { UnitsHold }
{}

/// A formula with unit clauses is over its variables exactly where the formula and the units' literals are.
pub fn units_keep()
    ensures { UnitsKeep }
{}

/// Where a derivation checks over a formula with unit clauses, no assignment that satisfies the formula makes all of
/// their literals true.
pub fn units_refuted()
    ensures { UnitsRefuted }
{}

/// Of two rows of as many bits, the highest bit in which they differ decides which number is less.
pub fn highest_bit_of_rows()
    ensures { HighestBitOfRows }
{}

/// Of two numbers of as many bits, the highest bit in which they differ decides which is less.
pub fn highest_bit_decides()
    ensures { HighestBitDecides }
{}

/// The number of the low bits of a number is what is left of it modulo 2 to their count.
pub fn number_of_low_bits()
    ensures { NumberOfLowBits }
{}

/// The low bits of the number of a row are the row.
pub fn low_bits_of_number()
    ensures { LowBitsOfNumber }
{}

/// Of rows of as many bits, the first difference of their bits, each row's from its highest on, decides which numbers are
/// before the others.
pub fn first_bit_decides()
    ensures { FirstBitDecides }
{}

/// Numbers each of which is at most another's are before what these are before.
pub fn lower_is_before()
    ensures { LowerIsBefore }
{}

/// A row with fewer bits has no greater number.
pub fn fewer_bits()
    ensures { FewerBits }
{}
