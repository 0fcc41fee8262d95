ghost use Rattle.std.specs.Prelude.{◌≡◌, ◌+◌, ◌*◌, ◌≤◌, ◌^◌, All, IfOk, length, bit_and, bit_or, bit_xor, if◌then◌else◌, pos};
ghost use Rattle.circuit.specs.Truth.{World};
ghost use Rattle.circuit.specs.Wires.{IsWire, lit_holds};
ghost use Rattle.c_values.specs.declared.kinds.Kind.{Kind};
ghost use Rattle.c_values.specs.Kind.{IsKind, wrapped};
ghost use Rattle.c_values.specs.Operations.{complement_of};
ghost use Rattle.bit_words.specs.Weights.{most_wires, bitwise_weight};
ghost use Rattle.bit_words.specs.Rows.{IsOperation, operation_bit};
ghost use Rattle.bit_words.specs.Words.{Grows, IsWord, bit_of, number_below, word_value};

use crate::rows::{BitOperation, row};
use crate::words::{Word, extended};
use c_values::Kind;
use circuit::{Circuit, Lit, Memory};

/// `a & b` (6.5.10p4): each bit is set where both operands' bits are.
pub fn and(circuit: &mut Circuit, a: &Word, b: &Word, kind: Kind) -> Result<Word, Memory>
    requires left { IsWord circuit.old kind a.now }
    requires right { IsWord circuit.old kind b.now }
    requires room { length circuit.old + most_wires (bitwise_weight kind.width) ≤ 2 ^ 30 }
    ensures grows { Grows circuit.old circuit.new (most_wires (bitwise_weight kind.width)) }
    ensures word { IfOk result (λ r. IsWord circuit.new kind r) }
    ensures value { IfOk result (λ r. (w : World) → word_value circuit.new r w ≡ bit_and (word_value circuit.old a.now w) (word_value circuit.old b.now w)) }
{
    let word = bitwise(circuit, BitOperation::And, a, b, kind)?;
    Ok(word)
}

/// `a | b` (6.5.12p4): each bit is set where one of the operands' bits is.
pub fn or(circuit: &mut Circuit, a: &Word, b: &Word, kind: Kind) -> Result<Word, Memory>
    requires left { IsWord circuit.old kind a.now }
    requires right { IsWord circuit.old kind b.now }
    requires room { length circuit.old + most_wires (bitwise_weight kind.width) ≤ 2 ^ 30 }
    ensures grows { Grows circuit.old circuit.new (most_wires (bitwise_weight kind.width)) }
    ensures word { IfOk result (λ r. IsWord circuit.new kind r) }
    ensures value { IfOk result (λ r. (w : World) → word_value circuit.new r w ≡ bit_or (word_value circuit.old a.now w) (word_value circuit.old b.now w)) }
{
    let word = bitwise(circuit, BitOperation::Or, a, b, kind)?;
    Ok(word)
}

/// `a ^ b` (6.5.11p4): each bit is set where just one of the operands' bits is.
pub fn xor(circuit: &mut Circuit, a: &Word, b: &Word, kind: Kind) -> Result<Word, Memory>
    requires left { IsWord circuit.old kind a.now }
    requires right { IsWord circuit.old kind b.now }
    requires room { length circuit.old + most_wires (bitwise_weight kind.width) ≤ 2 ^ 30 }
    ensures grows { Grows circuit.old circuit.new (most_wires (bitwise_weight kind.width)) }
    ensures word { IfOk result (λ r. IsWord circuit.new kind r) }
    ensures value { IfOk result (λ r. (w : World) → word_value circuit.new r w ≡ bit_xor (word_value circuit.old a.now w) (word_value circuit.old b.now w)) }
{
    let word = bitwise(circuit, BitOperation::Xor, a, b, kind)?;
    Ok(word)
}

/// `~a` (6.5.3.3p4): each bit of the kind is set where the operand's is not.
pub fn not(circuit: &mut Circuit, a: &Word, kind: Kind) -> Result<Word, Memory>
    requires operand { IsWord circuit.old kind a.now }
    requires room { length circuit.old + most_wires (bitwise_weight kind.width) ≤ 2 ^ 30 }
    ensures grows { Grows circuit.old circuit.new (most_wires (bitwise_weight kind.width)) }
    ensures word { IfOk result (λ r. IsWord circuit.new kind r) }
    ensures value { IfOk result (λ r. (w : World) → word_value circuit.new r w ≡ complement_of kind (word_value circuit.old a.now w)) }
{
    let word = bitwise(circuit, BitOperation::Complement, a, a, kind)?;
    Ok(word)
}

/// The value of a kind whose bits an operation makes of the bits of two words.
fn bitwise(
    circuit: &mut Circuit,
    operation: BitOperation,
    a: &Word,
    b: &Word,
    kind: Kind,
) -> Result<Word, Memory>
    requires operation { IsOperation circuit.old operation }
    requires left { All (IsWire circuit.old) a.now }
    requires right { All (IsWire circuit.old) b.now }
    requires kind { IsKind kind }
    requires room { length circuit.old + most_wires (bitwise_weight kind.width) ≤ 2 ^ 30 }
    ensures grows { Grows circuit.old circuit.new (most_wires (bitwise_weight kind.width)) }
    ensures word { IfOk result (λ r. IsWord circuit.new kind r) }
    ensures value { IfOk result (λ r. (w : World) → word_value circuit.new r w ≡ wrapped kind (pos (number_below kind.width (λ k. operation_bit circuit.old operation w (bit_of circuit.old a.now w k) (bit_of circuit.old b.now w k))))) }
{
    let bits = row(circuit, operation, a, b, kind.width as usize)?;
    Ok(extended(&bits, kind))
}

/// The first word where the test holds, and the second where not.
pub fn choose(circuit: &mut Circuit, test: Lit, yes: &Word, no: &Word) -> Result<Word, Memory>
    requires test { IsWire circuit.old test }
    requires left { All (IsWire circuit.old) yes.now }
    requires right { All (IsWire circuit.old) no.now }
    requires room { length circuit.old + 256 ≤ 2 ^ 30 }
    ensures grows { Grows circuit.old circuit.new 256 }
    ensures wires { IfOk result (λ r. All (IsWire circuit.new) r) }
    ensures word { IfOk result (λ r. (kind : Kind) → IsWord circuit.old kind yes.now → IsWord circuit.old kind no.now → IsWord circuit.new kind r) }
    ensures value { IfOk result (λ r. (w : World) → word_value circuit.new r w ≡ (if lit_holds circuit.old test w then word_value circuit.old yes.now w else word_value circuit.old no.now w)) }
{
    let bits = row(circuit, BitOperation::Choose { test }, yes, no, 64)?;
    Ok(bits)
}
