ghost use Rattle.std.specs.Prelude.{◌≡◌, ◌+◌, ◌*◌, ◌^◌, ◌≤◌, All, IfOk, false, length, unsigned_abs};
ghost use Rattle.circuit.specs.Truth.{World};
ghost use Rattle.circuit.specs.Wires.{IsWire, lit_holds};
ghost use Rattle.c_values.specs.Kind.{IsKind, number_of, residue, wrapped};
ghost use Rattle.bit_words.specs.Signs.{signed_number};
ghost use Rattle.bit_words.specs.Words.{Grows, IsWord, low_value, word_value};

use crate::rows::{BitOperation, row};
use crate::sums::difference;
use crate::words::{Word, blank, extended};
use c_values::Kind;
use circuit::{Circuit, Lit, Memory};

/// The magnitude of a value, in the bits below the width.
pub(crate) fn magnitude(circuit: &mut Circuit, word: &Word, kind: Kind) -> Result<Word, Memory>
    requires operand { IsWord circuit.old kind word.now }
    requires room { length circuit.old + 17 * kind.width ≤ 2 ^ 30 }
    ensures grows { Grows circuit.old circuit.new (17 * kind.width) }
    ensures wires { IfOk result (λ r. All (IsWire circuit.new) r) }
    ensures value { IfOk result (λ r. (w : World) → low_value kind.width circuit.new r w ≡ unsigned_abs (number_of kind (word_value circuit.old word.now w))) }
{
    if !kind.signed {
        return Ok(*word);
    }
    let width = kind.width as usize;
    let test = word[width - 1];
    let (opposite, _) = difference(circuit, &blank(), word, width)?;
    let bits = row(
        circuit,
        BitOperation::Choose { test },
        &opposite,
        word,
        width,
    )?;
    Ok(bits)
}

/// What a kind has of the number with a sign and a magnitude.
pub(crate) fn signed_word(
    circuit: &mut Circuit,
    negative: Lit,
    word: &Word,
    kind: Kind,
) -> Result<Word, Memory>
    requires sign { IsWire circuit.old negative }
    requires word { All (IsWire circuit.old) word.now }
    requires kind { IsKind kind }
    requires unsigned { kind.signed ≡ false → (w : World) → lit_holds circuit.old negative w ≡ false }
    requires room { length circuit.old + 17 * kind.width ≤ 2 ^ 30 }
    ensures grows { Grows circuit.old circuit.new (17 * kind.width) }
    ensures word { IfOk result (λ r. IsWord circuit.new kind r) }
    ensures value { IfOk result (λ r. (w : World) → word_value circuit.new r w ≡ wrapped kind (signed_number (lit_holds circuit.old negative w) (low_value kind.width circuit.old word.now w))) }
{
    let bits = with_sign(circuit, negative, word, kind)?;
    Ok(extended(&bits, kind))
}

/// The bits below the width of the number with a sign and a magnitude.
fn with_sign(circuit: &mut Circuit, negative: Lit, word: &Word, kind: Kind) -> Result<Word, Memory>
    requires sign { IsWire circuit.old negative }
    requires word { All (IsWire circuit.old) word.now }
    requires kind { IsKind kind }
    requires unsigned { kind.signed ≡ false → (w : World) → lit_holds circuit.old negative w ≡ false }
    requires room { length circuit.old + 17 * kind.width ≤ 2 ^ 30 }
    ensures grows { Grows circuit.old circuit.new (17 * kind.width) }
    ensures wires { IfOk result (λ r. All (IsWire circuit.new) r) }
    ensures value { IfOk result (λ r. (w : World) → low_value kind.width circuit.new r w ≡ residue (signed_number (lit_holds circuit.old negative w) (low_value kind.width circuit.old word.now w)) (2 ^ kind.width)) }
{
    if !kind.signed {
        return Ok(*word);
    }
    let width = kind.width as usize;
    let (opposite, _) = difference(circuit, &blank(), word, width)?;
    let bits = row(
        circuit,
        BitOperation::Choose { test: negative },
        &opposite,
        word,
        width,
    )?;
    Ok(bits)
}
