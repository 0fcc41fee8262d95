ghost use Rattle.std.specs.Prelude.{◌≡◌, ℕ, ◌+◌, ◌-◌, ◌*◌, ◌%◌, ◌^◌, ◌≤◌, ◌<◌, List, All, IfOk, Some, None, false, if◌then◌else◌, length};
ghost use Rattle.std.specs.Int.{int_shr};
ghost use Rattle.circuit.specs.Truth.{World};
ghost use Rattle.circuit.specs.Wires.{IsWire, lit_holds};
ghost use Rattle.circuit.specs.declared.lit.Gate.{Gate};
ghost use Rattle.c_values.specs.Kind.{IsKind, number_of, wrapped};
ghost use Rattle.c_values.specs.Operations.{is_shift_amount, left_shift_of, right_shift_of};
ghost use Rattle.bit_words.specs.Weights.{most_wires, shift_weight};
ghost use Rattle.bit_words.specs.Words.{Grows, IsWord, bit_of, low_value, word_value};

use crate::gates::inverse;
use crate::rows::{BitOperation, row, some_bit};
use crate::words::{Word, blank, extended};
use c_values::Kind;
use circuit::{Circuit, Lit, Memory};

/// `a << amount` (6.5.7p4): what the kind has of the product with 2 to the amount. The literal says that the amount is
/// from 0 to the width less 1.
pub fn shl(
    circuit: &mut Circuit,
    a: &Word,
    kind: Kind,
    amount: &Word,
    amount_kind: Kind,
) -> Result<(Word, Lit), Memory>
    requires left { IsWord circuit.old kind a.now }
    requires right { IsWord circuit.old amount_kind amount.now }
    requires room { length circuit.old + most_wires (shift_weight kind.width) ≤ 2 ^ 30 }
    ensures grows { Grows circuit.old circuit.new (most_wires (shift_weight kind.width)) }
    ensures word { IfOk result (λ r. IsWord circuit.new kind r.0) }
    ensures wire { IfOk result (λ r. IsWire circuit.new r.1) }
    ensures value { IfOk result (λ r. (w : World) → (if lit_holds circuit.new r.1 w then Some (word_value circuit.new r.0 w) else None) ≡ left_shift_of kind (word_value circuit.old a.now w) amount_kind (word_value circuit.old amount.now w)) }
{
    let count = stages(kind);
    let valid = is_amount(circuit, amount, amount_kind, kind, count)?;
    let bits = shifted_up(circuit, a, amount, kind, count)?;
    Ok((extended(&bits, kind), valid))
}

/// `a >> amount` (6.5.7p5): the quotient by 2 to the amount, rounded down. The literal says that the amount is from 0
/// to the width less 1.
pub fn shr(
    circuit: &mut Circuit,
    a: &Word,
    kind: Kind,
    amount: &Word,
    amount_kind: Kind,
) -> Result<(Word, Lit), Memory>
    requires left { IsWord circuit.old kind a.now }
    requires right { IsWord circuit.old amount_kind amount.now }
    requires room { length circuit.old + most_wires (shift_weight kind.width) ≤ 2 ^ 30 }
    ensures grows { Grows circuit.old circuit.new (most_wires (shift_weight kind.width)) }
    ensures word { IfOk result (λ r. IsWord circuit.new kind r.0) }
    ensures wire { IfOk result (λ r. IsWire circuit.new r.1) }
    ensures value { IfOk result (λ r. (w : World) → (if lit_holds circuit.new r.1 w then Some (word_value circuit.new r.0 w) else None) ≡ right_shift_of kind (word_value circuit.old a.now w) amount_kind (word_value circuit.old amount.now w)) }
{
    let count = stages(kind);
    let valid = is_amount(circuit, amount, amount_kind, kind, count)?;
    let word = shifted_down(circuit, a, amount, kind, count)?;
    Ok((word, valid))
}

/// How many bits an amount below the kind's width has.
fn stages(kind: Kind) -> usize
    requires { IsKind kind }
    ensures few { result ≤ 6 }
    ensures power { 2 ^ result ≡ kind.width }
{
    match kind.width {
        8 => 3,
        16 => 4,
        32 => 5,
        _ => 6,
    }
}

/// Whether a value of a kind may be shifted by this amount (6.5.7p3): whether no higher bit of the amount holds.
fn is_amount(
    circuit: &mut Circuit,
    amount: &Word,
    amount_kind: Kind,
    kind: Kind,
    count: usize,
) -> Result<Lit, Memory>
    requires amount { IsWord circuit.old amount_kind amount.now }
    requires shifted { IsKind kind }
    requires few { count ≤ 6 }
    requires power { 2 ^ count ≡ kind.width }
    requires room { length circuit.old + 65 ≤ 2 ^ 30 }
    ensures grows { Grows circuit.old circuit.new 65 }
    ensures wire { IfOk result (λ c. IsWire circuit.new c) }
    ensures value { IfOk result (λ c. (w : World) → lit_holds circuit.new c w ≡ is_shift_amount kind amount_kind (word_value circuit.old amount.now w)) }
{
    let some = some_bit(circuit, amount, count, amount_kind.width as usize)?;
    let valid = inverse(circuit, some)?;
    Ok(valid)
}

/// The bits below the width, shifted up by the lowest bits of the amount: by each power of two in turn.
fn shifted_up(
    circuit: &mut Circuit,
    a: &Word,
    amount: &Word,
    kind: Kind,
    count: usize,
) -> Result<Word, Memory>
    requires left { All (IsWire circuit.old) a.now }
    requires right { All (IsWire circuit.old) amount.now }
    requires few { count ≤ 6 }
    requires power { 2 ^ count ≡ kind.width }
    requires kind { IsKind kind }
    requires room { length circuit.old + 24 * kind.width ≤ 2 ^ 30 }
    ensures grows { Grows circuit.old circuit.new (24 * kind.width) }
    ensures wires { IfOk result (λ r. All (IsWire circuit.new) r) }
    ensures value { IfOk result (λ r. (w : World) → low_value kind.width circuit.new r w ≡ low_value kind.width circuit.old a.now w * 2 ^ low_value count circuit.old amount.now w % 2 ^ kind.width) }
{
    let width = kind.width as usize;
    let mut bits = *a;
    for i in 0..count {
        let moved = raised(&bits, 1 << i);
        bits = row(
            circuit,
            BitOperation::Choose { test: amount[i] },
            &moved,
            &bits,
            width,
        )?;
    }
    Ok(bits)
}

/// The value of a kind, shifted down by the lowest bits of the amount: by each power of two in turn.
fn shifted_down(
    circuit: &mut Circuit,
    a: &Word,
    amount: &Word,
    kind: Kind,
    count: usize,
) -> Result<Word, Memory>
    requires left { IsWord circuit.old kind a.now }
    requires right { All (IsWire circuit.old) amount.now }
    requires few { count ≤ 6 }
    requires power { 2 ^ count ≡ kind.width }
    requires room { length circuit.old + 24 * kind.width ≤ 2 ^ 30 }
    ensures grows { Grows circuit.old circuit.new (24 * kind.width) }
    ensures word { IfOk result (λ r. IsWord circuit.new kind r) }
    ensures value { IfOk result (λ r. (w : World) → word_value circuit.new r w ≡ wrapped kind (int_shr (number_of kind (word_value circuit.old a.now w)) (low_value count circuit.old amount.now w))) }
{
    let width = kind.width as usize;
    let mut word = *a;
    for i in 0..count {
        let moved = lowered(&word, 1 << i, kind);
        let bits = row(
            circuit,
            BitOperation::Choose { test: amount[i] },
            &moved,
            &word,
            width,
        )?;
        word = extended(&bits, kind);
    }
    Ok(word)
}

/// The bits that many places higher, with none below.
pub(crate) fn raised(word: &Word, by: usize) -> Word
    requires { by ≤ 64 }
    ensures wires { (gates : List Gate) → All (IsWire gates) word.now → All (IsWire gates) result }
    ensures low { (gates : List Gate) (w : World) (k : ℕ) → k < by → bit_of gates result w k ≡ false }
    ensures high { (gates : List Gate) (w : World) (k : ℕ) → by ≤ k → k < 64 → bit_of gates result w k ≡ bit_of gates word.now w (k - by) }
{
    let mut bits = blank();
    for i in by..64 {
        bits[i] = word[i - by];
    }
    bits
}

/// The bits that many places lower, with the sign above, or none in a kind without sign.
fn lowered(word: &Word, by: usize, kind: Kind) -> Word
    requires { by ≤ 64 }
    ensures wires { (gates : List Gate) → All (IsWire gates) word.now → All (IsWire gates) result }
    ensures low { (gates : List Gate) (w : World) (k : ℕ) → k + by < 64 → bit_of gates result w k ≡ bit_of gates word.now w (k + by) }
    ensures high { (gates : List Gate) (w : World) (k : ℕ) → 64 ≤ k + by → k < 64 → bit_of gates result w k ≡ (if kind.signed then bit_of gates word.now w 63 else false) }
{
    let mut bits = blank();
    for i in 0..64usize {
        bits[i] = bit_above(word, i + by, kind);
    }
    bits
}

/// The bit of a place, which is the sign past the highest, or none in a kind without sign.
fn bit_above(word: &Word, place: usize, kind: Kind) -> Lit
    ensures wire { (gates : List Gate) → All (IsWire gates) word.now → IsWire gates result }
    ensures low { place < 64 → (gates : List Gate) (w : World) → lit_holds gates result w ≡ bit_of gates word.now w place }
    ensures high { 64 ≤ place → (gates : List Gate) (w : World) → lit_holds gates result w ≡ (if kind.signed then bit_of gates word.now w 63 else false) }
{
    if place < 64 {
        word[place]
    } else if kind.signed {
        word[63]
    } else {
        Lit::NO
    }
}
