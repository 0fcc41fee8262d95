ghost use Rattle.std.specs.Prelude.{◌≡◌, ℕ, ◌+◌, ◌-◌, ◌*◌, ◌^◌, ◌≤◌, ◌<◌, List, All, IfOk, length};
ghost use Rattle.circuit.specs.Truth.{World};
ghost use Rattle.circuit.specs.Wires.{IsWire, lit_holds};
ghost use Rattle.circuit.specs.declared.lit.Gate.{Gate};
ghost use Rattle.bit_words.specs.Words.{Grows, bit_of, low_value, place_value};

use crate::gates::either;
use crate::rows::{BitOperation, row};
use crate::shifts::raised;
use crate::sums::difference;
use crate::words::{Word, blank};
use circuit::{Circuit, Lit, Memory};

/// The quotient and the remainder of the bits below the width, as numbers without sign: by restoring division, from
/// the dividend's highest bit down.
pub(crate) fn long_division(
    circuit: &mut Circuit,
    a: &Word,
    b: &Word,
    width: usize,
) -> Result<(Word, Word), Memory>
    requires left { All (IsWire circuit.old) a.now }
    requires right { All (IsWire circuit.old) b.now }
    requires some { 0 < width }
    requires width { width ≤ 64 }
    requires room { length circuit.old + 18 * (width * width) ≤ 2 ^ 30 }
    ensures grows { Grows circuit.old circuit.new (18 * (width * width)) }
    ensures wires { IfOk result (λ r. All (IsWire circuit.new) r.0 × All (IsWire circuit.new) r.1) }
    ensures value { IfOk result (λ r. (w : World) → 0 < low_value width circuit.old b.now w → low_value width circuit.old a.now w ≡ low_value width circuit.new r.0 w * low_value width circuit.old b.now w + low_value width circuit.new r.1 w) }
    ensures smaller { IfOk result (λ r. (w : World) → 0 < low_value width circuit.old b.now w → low_value width circuit.new r.1 w < low_value width circuit.old b.now w) }
{
    let mut quotient = blank();
    let mut rest = blank();
    for j in 0..width {
        let i = width - 1 - j;
        let (less, bit) = division_step(circuit, &rest, a[i], b, width)?;
        rest = less;
        quotient[i] = bit;
    }
    Ok((quotient, rest))
}

/// One more bit of the dividend: the rest, doubled and with that bit below, less the divisor if it is not smaller, and
/// whether it is not.
fn division_step(
    circuit: &mut Circuit,
    rest: &Word,
    next: Lit,
    b: &Word,
    width: usize,
) -> Result<(Word, Lit), Memory>
    requires rest { All (IsWire circuit.old) rest.now }
    requires next { IsWire circuit.old next }
    requires right { All (IsWire circuit.old) b.now }
    requires some { 0 < width }
    requires width { width ≤ 64 }
    requires room { length circuit.old + (17 * width + 1) ≤ 2 ^ 30 }
    ensures grows { Grows circuit.old circuit.new (17 * width + 1) }
    ensures wires { IfOk result (λ r. All (IsWire circuit.new) r.0 × IsWire circuit.new r.1) }
    ensures value { IfOk result (λ r. (w : World) → low_value width circuit.old rest.now w < low_value width circuit.old b.now w → 2 * low_value width circuit.old rest.now w + place_value 0 (lit_holds circuit.old next w) ≡ place_value 0 (lit_holds circuit.new r.1 w) * low_value width circuit.old b.now w + low_value width circuit.new r.0 w) }
    ensures smaller { IfOk result (λ r. (w : World) → low_value width circuit.old rest.now w < low_value width circuit.old b.now w → low_value width circuit.new r.0 w < low_value width circuit.old b.now w) }
{
    let doubled = appended(rest, next);
    let over = rest[width - 1];
    let (less, fits) = difference(circuit, &doubled, b, width)?;
    let bit = either(circuit, over, fits)?;
    let rest = row(
        circuit,
        BitOperation::Choose { test: bit },
        &less,
        &doubled,
        width,
    )?;
    Ok((rest, bit))
}

/// The bits one place higher, with another one below.
fn appended(word: &Word, lowest: Lit) -> Word
    ensures wires { (gates : List Gate) → All (IsWire gates) word.now → IsWire gates lowest → All (IsWire gates) result }
    ensures low { (gates : List Gate) (w : World) → bit_of gates result w 0 ≡ lit_holds gates lowest w }
    ensures high { (gates : List Gate) (w : World) (k : ℕ) → k + 1 < 64 → bit_of gates result w (k + 1) ≡ bit_of gates word.now w k }
{
    let mut bits = raised(word, 1);
    bits[0] = lowest;
    bits
}
