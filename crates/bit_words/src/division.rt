ghost use Rattle.std.specs.Prelude.{◌≡◌, ◌+◌, ◌*◌, ◌/◌, ◌%◌, ◌^◌, ◌≤◌, ◌<◌, All, IfOk, Some, None, true, if◌then◌else◌, length, unsigned_abs};
ghost use Rattle.circuit.specs.Truth.{World};
ghost use Rattle.circuit.specs.Wires.{IsWire, lit_holds};
ghost use Rattle.c_values.specs.Kind.{number_of};
ghost use Rattle.c_values.specs.Operations.{has_quotient, is_overflow_divisor, quotient_of, remainder_of};
ghost use Rattle.bit_words.specs.Weights.{most_wires, quotient_weight};
ghost use Rattle.bit_words.specs.Words.{Grows, IsWord, low_value, word_value};

use crate::comparisons::equal;
use crate::gates::{both, either, half_sum, inverse};
use crate::long_division::long_division;
use crate::magnitudes::{magnitude, signed_word};
use crate::words::{Word, constant, extension};
use c_values::Kind;
use circuit::{Circuit, Lit, Memory};

/// `a / b` (6.5.5p5, p6), rounded toward zero. The literal says that there is a quotient.
pub fn div(circuit: &mut Circuit, a: &Word, b: &Word, kind: Kind) -> Result<(Word, Lit), Memory>
    requires left { IsWord circuit.old kind a.now }
    requires right { IsWord circuit.old kind b.now }
    requires room { length circuit.old + most_wires (quotient_weight kind.width) ≤ 2 ^ 30 }
    ensures grows { Grows circuit.old circuit.new (most_wires (quotient_weight kind.width)) }
    ensures word { IfOk result (λ r. IsWord circuit.new kind r.0) }
    ensures wire { IfOk result (λ r. IsWire circuit.new r.1) }
    ensures value { IfOk result (λ r. (w : World) → (if lit_holds circuit.new r.1 w then Some (word_value circuit.new r.0 w) else None) ≡ quotient_of kind (word_value circuit.old a.now w) (word_value circuit.old b.now w)) }
{
    let (quotient, _, exists) = checked_division(circuit, a, b, kind)?;
    let first = extension(a, kind);
    let second = extension(b, kind);
    let (negative, _) = half_sum(circuit, first, second)?;
    let word = signed_word(circuit, negative, &quotient, kind)?;
    Ok((word, exists))
}

/// `a % b` (6.5.5p5, p6), with the sign of `a`. The literal says that there is a quotient.
pub fn rem(circuit: &mut Circuit, a: &Word, b: &Word, kind: Kind) -> Result<(Word, Lit), Memory>
    requires left { IsWord circuit.old kind a.now }
    requires right { IsWord circuit.old kind b.now }
    requires room { length circuit.old + most_wires (quotient_weight kind.width) ≤ 2 ^ 30 }
    ensures grows { Grows circuit.old circuit.new (most_wires (quotient_weight kind.width)) }
    ensures word { IfOk result (λ r. IsWord circuit.new kind r.0) }
    ensures wire { IfOk result (λ r. IsWire circuit.new r.1) }
    ensures value { IfOk result (λ r. (w : World) → (if lit_holds circuit.new r.1 w then Some (word_value circuit.new r.0 w) else None) ≡ remainder_of kind (word_value circuit.old a.now w) (word_value circuit.old b.now w)) }
{
    let (_, remainder, exists) = checked_division(circuit, a, b, kind)?;
    let negative = extension(a, kind);
    let word = signed_word(circuit, negative, &remainder, kind)?;
    Ok((word, exists))
}

/// The quotient and the remainder of the magnitudes where there are such, in the bits below the width, and whether there
/// are.
fn checked_division(
    circuit: &mut Circuit,
    a: &Word,
    b: &Word,
    kind: Kind,
) -> Result<(Word, Word, Lit), Memory>
    requires left { IsWord circuit.old kind a.now }
    requires right { IsWord circuit.old kind b.now }
    requires room { length circuit.old + (754 * kind.width + 18 * (kind.width * kind.width) + 3) ≤ 2 ^ 30 }
    ensures grows { Grows circuit.old circuit.new (754 * kind.width + 18 * (kind.width * kind.width) + 3) }
    ensures wires { IfOk result (λ r. All (IsWire circuit.new) r.0 × All (IsWire circuit.new) r.1 × IsWire circuit.new r.2) }
    ensures exists { IfOk result (λ r. (w : World) → lit_holds circuit.new r.2 w ≡ has_quotient kind (word_value circuit.old a.now w) (word_value circuit.old b.now w)) }
    ensures quotient { IfOk result (λ r. (w : World) → has_quotient kind (word_value circuit.old a.now w) (word_value circuit.old b.now w) ≡ true → low_value kind.width circuit.new r.0 w ≡ unsigned_abs (number_of kind (word_value circuit.old a.now w)) / unsigned_abs (number_of kind (word_value circuit.old b.now w))) }
    ensures remainder { IfOk result (λ r. (w : World) → has_quotient kind (word_value circuit.old a.now w) (word_value circuit.old b.now w) ≡ true → low_value kind.width circuit.new r.1 w ≡ unsigned_abs (number_of kind (word_value circuit.old a.now w)) % unsigned_abs (number_of kind (word_value circuit.old b.now w))) }
{
    let exists = quotient_exists(circuit, a, b, kind)?;
    let (quotient, remainder) = divided(circuit, a, b, kind)?;
    Ok((quotient, remainder, exists))
}

/// The quotient and the remainder of the magnitudes, in the bits below the width.
fn divided(circuit: &mut Circuit, a: &Word, b: &Word, kind: Kind) -> Result<(Word, Word), Memory>
    requires left { IsWord circuit.old kind a.now }
    requires right { IsWord circuit.old kind b.now }
    requires room { length circuit.old + (34 * kind.width + 18 * (kind.width * kind.width)) ≤ 2 ^ 30 }
    ensures grows { Grows circuit.old circuit.new (34 * kind.width + 18 * (kind.width * kind.width)) }
    ensures wires { IfOk result (λ r. All (IsWire circuit.new) r.0 × All (IsWire circuit.new) r.1) }
    ensures quotient { IfOk result (λ r. (w : World) → 0 < unsigned_abs (number_of kind (word_value circuit.old b.now w)) → low_value kind.width circuit.new r.0 w ≡ unsigned_abs (number_of kind (word_value circuit.old a.now w)) / unsigned_abs (number_of kind (word_value circuit.old b.now w))) }
    ensures remainder { IfOk result (λ r. (w : World) → 0 < unsigned_abs (number_of kind (word_value circuit.old b.now w)) → low_value kind.width circuit.new r.1 w ≡ unsigned_abs (number_of kind (word_value circuit.old a.now w)) % unsigned_abs (number_of kind (word_value circuit.old b.now w))) }
{
    let left = magnitude(circuit, a, kind)?;
    let right = magnitude(circuit, b, kind)?;
    let (quotient, remainder) = long_division(circuit, &left, &right, kind.width as usize)?;
    Ok((quotient, remainder))
}

/// Whether there is a quotient (6.5.5p5, p6).
fn quotient_exists(circuit: &mut Circuit, a: &Word, b: &Word, kind: Kind) -> Result<Lit, Memory>
    requires left { IsWord circuit.old kind a.now }
    requires right { IsWord circuit.old kind b.now }
    requires room { length circuit.old + (720 * kind.width + 3) ≤ 2 ^ 30 }
    ensures grows { Grows circuit.old circuit.new (720 * kind.width + 3) }
    ensures wire { IfOk result (λ c. IsWire circuit.new c) }
    ensures value { IfOk result (λ c. (w : World) → lit_holds circuit.new c w ≡ has_quotient kind (word_value circuit.old a.now w) (word_value circuit.old b.now w)) }
{
    let nil = constant(0);
    let zero = equal(circuit, b, &nil, kind)?;
    let overflow = is_overflow(circuit, a, b, kind)?;
    let none = either(circuit, zero, overflow)?;
    let exists = inverse(circuit, none)?;
    Ok(exists)
}

/// Whether the quotient is no number of the kind (6.5.5p6): the least number of a kind with a sign, by -1.
fn is_overflow(circuit: &mut Circuit, a: &Word, b: &Word, kind: Kind) -> Result<Lit, Memory>
    requires left { IsWord circuit.old kind a.now }
    requires right { IsWord circuit.old kind b.now }
    requires room { length circuit.old + (480 * kind.width + 1) ≤ 2 ^ 30 }
    ensures grows { Grows circuit.old circuit.new (480 * kind.width + 1) }
    ensures wire { IfOk result (λ c. IsWire circuit.new c) }
    ensures value { IfOk result (λ c. (w : World) → lit_holds circuit.new c w ≡ is_overflow_divisor kind (word_value circuit.old a.now w) (word_value circuit.old b.now w)) }
{
    if !kind.signed {
        return Ok(Lit::NO);
    }
    let least = constant(u64::MAX << (kind.width as u32 - 1));
    let minus_one = constant(u64::MAX);
    let is_least = equal(circuit, a, &least, kind)?;
    let is_minus_one = equal(circuit, b, &minus_one, kind)?;
    let overflow = both(circuit, is_least, is_minus_one)?;
    Ok(overflow)
}
