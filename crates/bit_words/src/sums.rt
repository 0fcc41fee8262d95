ghost use Rattle.std.specs.Prelude.{◌≡◌, ◌+◌, ◌*◌, ◌≤◌, ◌^◌, All, IfOk, length};
ghost use Rattle.circuit.specs.Truth.{World};
ghost use Rattle.circuit.specs.Wires.{IsWire, lit_holds};
ghost use Rattle.c_values.specs.Kind.{IsKind};
ghost use Rattle.c_values.specs.Operations.{difference_of, negative_of, sum_of};
ghost use Rattle.bit_words.specs.Weights.{most_wires, sum_weight};
ghost use Rattle.bit_words.specs.Words.{Grows, IsWord, low_value, place_value, word_value};

use crate::gates::full_sum;
use crate::rows::{BitOperation, row};
use crate::words::{Word, blank, extended};
use c_values::Kind;
use circuit::{Circuit, Lit, Memory};

/// `a + b` (6.5.6p5): the number of the kind's range that equals the sum modulo 2 to the width.
pub fn add(circuit: &mut Circuit, a: &Word, b: &Word, kind: Kind) -> Result<Word, Memory>
    requires left { IsWord circuit.old kind a.now }
    requires right { IsWord circuit.old kind b.now }
    requires room { length circuit.old + most_wires (sum_weight kind.width) ≤ 2 ^ 30 }
    ensures grows { Grows circuit.old circuit.new (most_wires (sum_weight kind.width)) }
    ensures word { IfOk result (λ r. IsWord circuit.new kind r) }
    ensures value { IfOk result (λ r. (w : World) → word_value circuit.new r w ≡ sum_of kind (word_value circuit.old a.now w) (word_value circuit.old b.now w)) }
{
    let (bits, _) = sum(circuit, a, b, Lit::NO, kind.width as usize)?;
    Ok(extended(&bits, kind))
}

/// `a - b` (6.5.6p6): the number of the kind's range that equals the difference modulo 2 to the width.
pub fn sub(circuit: &mut Circuit, a: &Word, b: &Word, kind: Kind) -> Result<Word, Memory>
    requires left { IsWord circuit.old kind a.now }
    requires right { IsWord circuit.old kind b.now }
    requires room { length circuit.old + most_wires (sum_weight kind.width) ≤ 2 ^ 30 }
    ensures grows { Grows circuit.old circuit.new (most_wires (sum_weight kind.width)) }
    ensures word { IfOk result (λ r. IsWord circuit.new kind r) }
    ensures value { IfOk result (λ r. (w : World) → word_value circuit.new r w ≡ difference_of kind (word_value circuit.old a.now w) (word_value circuit.old b.now w)) }
{
    let (bits, _) = difference(circuit, a, b, kind.width as usize)?;
    Ok(extended(&bits, kind))
}

/// `-a` (6.5.3.3p3): the number of the kind's range that equals it modulo 2 to the width.
pub fn neg(circuit: &mut Circuit, a: &Word, kind: Kind) -> Result<Word, Memory>
    requires operand { IsWord circuit.old kind a.now }
    requires room { length circuit.old + most_wires (sum_weight kind.width) ≤ 2 ^ 30 }
    ensures grows { Grows circuit.old circuit.new (most_wires (sum_weight kind.width)) }
    ensures word { IfOk result (λ r. IsWord circuit.new kind r) }
    ensures value { IfOk result (λ r. (w : World) → word_value circuit.new r w ≡ negative_of kind (word_value circuit.old a.now w)) }
{
    let (bits, _) = difference(circuit, &blank(), a, kind.width as usize)?;
    Ok(extended(&bits, kind))
}

/// The sum of the bits below the width and of a carry, with what is carried out of them.
pub(crate) fn sum(
    circuit: &mut Circuit,
    a: &Word,
    b: &Word,
    carry: Lit,
    width: usize,
) -> Result<(Word, Lit), Memory>
    requires left { All (IsWire circuit.old) a.now }
    requires right { All (IsWire circuit.old) b.now }
    requires carry { IsWire circuit.old carry }
    requires width { width ≤ 64 }
    requires room { length circuit.old + 9 * width ≤ 2 ^ 30 }
    ensures grows { Grows circuit.old circuit.new (9 * width) }
    ensures wires { IfOk result (λ r. All (IsWire circuit.new) r.0 × IsWire circuit.new r.1) }
    ensures value { IfOk result (λ r. (w : World) → low_value width circuit.new r.0 w + place_value width (lit_holds circuit.new r.1 w) ≡ low_value width circuit.old a.now w + low_value width circuit.old b.now w + place_value 0 (lit_holds circuit.old carry w)) }
{
    let mut bits = blank();
    let mut carried = carry;
    for i in 0..width {
        let (bit, next) = full_sum(circuit, a[i], b[i], carried)?;
        bits[i] = bit;
        carried = next;
    }
    Ok((bits, carried))
}

/// The difference of the bits below the width, and whether it isn't negative.
pub(crate) fn difference(
    circuit: &mut Circuit,
    a: &Word,
    b: &Word,
    width: usize,
) -> Result<(Word, Lit), Memory>
    requires left { All (IsWire circuit.old) a.now }
    requires right { All (IsWire circuit.old) b.now }
    requires width { width ≤ 64 }
    requires room { length circuit.old + 13 * width ≤ 2 ^ 30 }
    ensures grows { Grows circuit.old circuit.new (13 * width) }
    ensures wires { IfOk result (λ r. All (IsWire circuit.new) r.0 × IsWire circuit.new r.1) }
    ensures value { IfOk result (λ r. (w : World) → low_value width circuit.new r.0 w + place_value width (lit_holds circuit.new r.1 w) + low_value width circuit.old b.now w ≡ low_value width circuit.old a.now w + 2 ^ width) }
{
    let complement = row(circuit, BitOperation::Complement, b, b, width)?;
    let (bits, carry) = sum(circuit, a, &complement, Lit::YES, width)?;
    Ok((bits, carry))
}
