ghost use Rattle.std.specs.Prelude.{◌≡◌, ◌+◌, ◌*◌, ◌%◌, ◌^◌, ◌≤◌, All, IfOk, length};
ghost use Rattle.circuit.specs.Truth.{World};
ghost use Rattle.circuit.specs.Wires.{IsWire};
ghost use Rattle.c_values.specs.Operations.{product_of};
ghost use Rattle.bit_words.specs.Weights.{most_wires, product_weight};
ghost use Rattle.bit_words.specs.Words.{Grows, IsWord, low_value, word_value};

use crate::rows::{BitOperation, row};
use crate::shifts::raised;
use crate::sums::sum;
use crate::words::{Word, blank, extended};
use c_values::Kind;
use circuit::{Circuit, Lit, Memory};

/// `a * b` (6.5.5p4): the number of the kind's range that equals the product modulo 2 to the width.
pub fn mul(circuit: &mut Circuit, a: &Word, b: &Word, kind: Kind) -> Result<Word, Memory>
    requires left { IsWord circuit.old kind a.now }
    requires right { IsWord circuit.old kind b.now }
    requires room { length circuit.old + most_wires (product_weight kind.width) ≤ 2 ^ 30 }
    ensures grows { Grows circuit.old circuit.new (most_wires (product_weight kind.width)) }
    ensures word { IfOk result (λ r. IsWord circuit.new kind r) }
    ensures value { IfOk result (λ r. (w : World) → word_value circuit.new r w ≡ product_of kind (word_value circuit.old a.now w) (word_value circuit.old b.now w)) }
{
    let bits = product(circuit, a, b, kind.width as usize)?;
    Ok(extended(&bits, kind))
}

/// The product of the bits below the width, modulo 2 to the width: the sum of the first factor, moved to each place
/// where the second has a bit.
fn product(circuit: &mut Circuit, a: &Word, b: &Word, width: usize) -> Result<Word, Memory>
    requires left { All (IsWire circuit.old) a.now }
    requires right { All (IsWire circuit.old) b.now }
    requires width { width ≤ 64 }
    requires room { length circuit.old + 13 * (width * width) ≤ 2 ^ 30 }
    ensures grows { Grows circuit.old circuit.new (13 * (width * width)) }
    ensures wires { IfOk result (λ r. All (IsWire circuit.new) r) }
    ensures value { IfOk result (λ r. (w : World) → low_value width circuit.new r w ≡ low_value width circuit.old a.now w * low_value width circuit.old b.now w % 2 ^ width) }
{
    let mut bits = blank();
    for i in 0..width {
        let moved = raised(a, i);
        let part = row(
            circuit,
            BitOperation::Mask { test: b[i] },
            &moved,
            &moved,
            width,
        )?;
        let (next, _) = sum(circuit, &bits, &part, Lit::NO, width)?;
        bits = next;
    }
    Ok(bits)
}
