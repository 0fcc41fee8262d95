ghost use Rattle.std.specs.Prelude.{◌≡◌, ℕ, ◌+◌, ◌*◌, ◌≤◌, ◌<◌, ◌^◌, Bool, if◌then◌else◌, All, IfOk, length, slice_index_or, false, true};
ghost use Rattle.circuit.specs.Truth.{World};
ghost use Rattle.circuit.specs.Wires.{IsWire, lit_holds};
ghost use Rattle.bit_words.specs.Words.{Grows, bit_of, low_value};
ghost use Rattle.bit_words.specs.Rows.{IsOperation, operation_bit, xor};

use crate::gates::{both, choice, either, half_sum, inverse};
use crate::words::{Word, blank};
use circuit::{Circuit, Lit, Memory};

/// What the gates of one place make of two bits.
#[derive(Clone, Copy)]
pub(crate) enum BitOperation {
    And,
    Or,
    Xor,
    /// The first bit's complement.
    Complement,
    /// The first bit where the test holds, and no where not.
    Mask { test: Lit },
    /// The first bit where the test holds, and the second where not.
    Choose { test: Lit },
}

/// One bit for each place below the width, and no at the others.
pub(crate) fn row(
    circuit: &mut Circuit,
    operation: BitOperation,
    a: &Word,
    b: &Word,
    width: usize,
) -> Result<Word, Memory>
    requires operation { IsOperation circuit.old operation }
    requires left { All (IsWire circuit.old) a.now }
    requires right { All (IsWire circuit.old) b.now }
    requires width { width ≤ 64 }
    requires room { length circuit.old + 4 * width ≤ 2 ^ 30 }
    ensures grows { Grows circuit.old circuit.new (4 * width) }
    ensures wires { IfOk result (λ r. All (IsWire circuit.new) r) }
    ensures bits { IfOk result (λ r. (w : World) (k : ℕ) → k < width → bit_of circuit.new r w k ≡ operation_bit circuit.old operation w (bit_of circuit.old a.now w k) (bit_of circuit.old b.now w k)) }
{
    let mut bits = blank();
    for i in 0..width {
        bits[i] = operation.gate(circuit, a[i], b[i])?;
    }
    Ok(bits)
}

/// Whether a bit holds of those from one place to before another.
pub(crate) fn some_bit(
    circuit: &mut Circuit,
    word: &Word,
    from: usize,
    to: usize,
) -> Result<Lit, Memory>
    requires word { All (IsWire circuit.old) word.now }
    requires places { from ≤ to }
    requires within { to ≤ 64 }
    requires room { length circuit.old + to ≤ 2 ^ 30 }
    ensures grows { Grows circuit.old circuit.new to }
    ensures wire { IfOk result (λ c. IsWire circuit.new c) }
    ensures none { IfOk result (λ c. (w : World) → lit_holds circuit.new c w ≡ false → low_value to circuit.old word.now w ≡ low_value from circuit.old word.now w) }
    ensures some { IfOk result (λ c. (w : World) → lit_holds circuit.new c w ≡ true → low_value from circuit.old word.now w < low_value to circuit.old word.now w) }
{
    let mut some = Lit::NO;
    for i in from..to {
        some = either(circuit, some, word[i])?;
    }
    Ok(some)
}

impl BitOperation {
    /// The bit of one place.
    fn gate(self, circuit: &mut Circuit, a: Lit, b: Lit) -> Result<Lit, Memory>
        requires operation { IsOperation circuit.old self }
        requires left { IsWire circuit.old a }
        requires right { IsWire circuit.old b }
        requires room { length circuit.old + 4 ≤ 2 ^ 30 }
        ensures grows { Grows circuit.old circuit.new 4 }
        ensures wire { IfOk result (λ c. IsWire circuit.new c) }
        ensures value { IfOk result (λ c. (w : World) → lit_holds circuit.new c w ≡ operation_bit circuit.old self w (lit_holds circuit.old a w) (lit_holds circuit.old b w)) }
    {
        match self {
            BitOperation::And => both(circuit, a, b),
            BitOperation::Or => either(circuit, a, b),
            BitOperation::Xor => Ok(half_sum(circuit, a, b)?.0),
            BitOperation::Complement => inverse(circuit, a),
            BitOperation::Mask { test } => both(circuit, a, test),
            BitOperation::Choose { test } => choice(circuit, test, a, b),
        }
    }
}
