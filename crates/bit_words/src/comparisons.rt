ghost use Rattle.std.specs.Prelude.{◌≡◌, ◌==◌, ◌+◌, ◌*◌, ◌≤◌, ◌^◌, ◌+ℤ◌, pos, not, All, IfOk, length};
ghost use Rattle.circuit.specs.Truth.{World};
ghost use Rattle.circuit.specs.Wires.{IsWire, lit_holds};
ghost use Rattle.c_values.specs.Kind.{number_of};
ghost use Rattle.c_values.specs.Operations.{is_equal, is_less};
ghost use Rattle.bit_words.specs.Biases.{bias_of};
ghost use Rattle.bit_words.specs.Weights.{most_wires, sum_weight};
ghost use Rattle.bit_words.specs.Words.{Grows, IsWord, low_value, word_value};

use crate::gates::inverse;
use crate::rows::{BitOperation, row, some_bit};
use crate::sums::difference;
use crate::words::Word;
use c_values::Kind;
use circuit::{Circuit, Lit, Memory};

/// Whether a value is below another of its kind (6.5.8p6).
pub fn less(circuit: &mut Circuit, a: &Word, b: &Word, kind: Kind) -> Result<Lit, Memory>
    requires left { IsWord circuit.old kind a.now }
    requires right { IsWord circuit.old kind b.now }
    requires room { length circuit.old + most_wires (sum_weight kind.width) ≤ 2 ^ 30 }
    ensures grows { Grows circuit.old circuit.new (most_wires (sum_weight kind.width)) }
    ensures wire { IfOk result (λ c. IsWire circuit.new c) }
    ensures value { IfOk result (λ c. (w : World) → lit_holds circuit.new c w ≡ is_less kind (word_value circuit.old a.now w) (word_value circuit.old b.now w)) }
{
    let left = biased(circuit, a, kind)?;
    let right = biased(circuit, b, kind)?;
    let (_, not_less) = difference(circuit, &left, &right, kind.width as usize)?;
    let less = inverse(circuit, not_less)?;
    Ok(less)
}

/// Whether two values of a kind are equal (6.5.9p3).
pub fn equal(circuit: &mut Circuit, a: &Word, b: &Word, kind: Kind) -> Result<Lit, Memory>
    requires left { IsWord circuit.old kind a.now }
    requires right { IsWord circuit.old kind b.now }
    requires room { length circuit.old + most_wires (sum_weight kind.width) ≤ 2 ^ 30 }
    ensures grows { Grows circuit.old circuit.new (most_wires (sum_weight kind.width)) }
    ensures wire { IfOk result (λ c. IsWire circuit.new c) }
    ensures value { IfOk result (λ c. (w : World) → lit_holds circuit.new c w ≡ is_equal kind (word_value circuit.old a.now w) (word_value circuit.old b.now w)) }
{
    let width = kind.width as usize;
    let differing = row(circuit, BitOperation::Xor, a, b, width)?;
    let some = some_bit(circuit, &differing, 0, width)?;
    let none = inverse(circuit, some)?;
    Ok(none)
}

/// Whether a word compares unequal to 0 (6.8.4.1p2): whether one of its bits is set.
pub fn nonzero(circuit: &mut Circuit, a: &Word) -> Result<Lit, Memory>
    requires word { All (IsWire circuit.old) a.now }
    requires room { length circuit.old + 64 ≤ 2 ^ 30 }
    ensures grows { Grows circuit.old circuit.new 64 }
    ensures wire { IfOk result (λ c. IsWire circuit.new c) }
    ensures value { IfOk result (λ c. (w : World) → lit_holds circuit.new c w ≡ not (word_value circuit.old a.now w == 0)) }
{
    let some = some_bit(circuit, a, 0, 64)?;
    Ok(some)
}

/// A value with its kind's bias, which makes it natural: with its highest bit turned, if the kind has a sign.
fn biased(circuit: &mut Circuit, word: &Word, kind: Kind) -> Result<Word, Memory>
    requires operand { IsWord circuit.old kind word.now }
    requires room { length circuit.old + 1 ≤ 2 ^ 30 }
    ensures grows { Grows circuit.old circuit.new 1 }
    ensures wires { IfOk result (λ r. All (IsWire circuit.new) r) }
    ensures value { IfOk result (λ r. (w : World) → pos (low_value kind.width circuit.new r w) ≡ number_of kind (word_value circuit.old word.now w) +ℤ pos (bias_of kind)) }
{
    if !kind.signed {
        return Ok(*word);
    }
    let place = kind.width as usize - 1;
    let turned = inverse(circuit, word[place])?;
    let mut bits = *word;
    bits[place] = turned;
    Ok(bits)
}
