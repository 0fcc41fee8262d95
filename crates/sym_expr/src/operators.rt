// Operators on words.
ghost use Rattle.std.specs.Prelude.{◌≡◌, ◌+◌, ◌*◌, ◌≤◌, ◌^◌, false, IfOk, Some, if◌then◌else◌, length, not};
ghost use Rattle.std.specs.Option.{option_and_then};
ghost use Rattle.circuit.specs.Truth.{World};
ghost use Rattle.circuit.specs.Wires.{IsWire, lit_holds};
ghost use Rattle.c_values.specs.declared.kinds.Kind.{Kind};
ghost use Rattle.c_values.specs.Kind.{int};
ghost use Rattle.c_values.specs.Operations.{is_less, is_equal, is_shift, truth_of, unary_value, unary_kind, binary_value, binary_kind};
ghost use Rattle.bit_words.specs.Weights.{most_wires, sum_weight};
ghost use Rattle.bit_words.specs.Words.{Grows, IsWord, word_value};
ghost use Rattle.sym_expr.specs.Stores.{outcome_in};
ghost use Rattle.sym_expr.specs.Weights.{unary_weight, binary_weight, most_expression_wires};

use crate::patterns::{is_pattern, matched, test_word};
use bit_words::gates::both;
use bit_words::{Word, add, and, div, equal, less, mul, neg, not, or, rem, shl, shr, sub, xor};
use c_values::{BinaryOp, Kind, UnaryOp};
use circuit::{Circuit, Lit, Memory};

/// The value of an operator with one operand (ISO/IEC 9899:2011, 6.5.3.3): of `!` an int, and of the others a value of
/// the operand's kind.
pub(crate) fn unary(
    circuit: &mut Circuit,
    op: UnaryOp,
    a: &Word,
    kind: Kind,
) -> Result<Word, Memory>
    requires operand { IsWord circuit.old kind a.now }
    requires room { length circuit.old + most_expression_wires (unary_weight op kind.width) ≤ 2 ^ 30 }
    ensures grows { Grows circuit.old circuit.new (most_expression_wires (unary_weight op kind.width)) }
    ensures word { IfOk result (λ r. IsWord circuit.new (unary_kind op kind) r) }
    ensures value { IfOk result (λ r. (w : World) → word_value circuit.new r w ≡ unary_value op kind (word_value circuit.old a.now w)) }
{
    match op {
        UnaryOp::Neg => neg(circuit, a, kind),
        UnaryOp::Complement => not(circuit, a, kind),
        UnaryOp::Not => zero_word(circuit, a, kind),
    }
}

/// The int 1 where a value is 0, and 0 where not (6.5.3.3p5).
fn zero_word(circuit: &mut Circuit, a: &Word, kind: Kind) -> Result<Word, Memory>
    requires operand { IsWord circuit.old kind a.now }
    requires room { length circuit.old + 128 ≤ 2 ^ 30 }
    ensures grows { Grows circuit.old circuit.new 128 }
    ensures word { IfOk result (λ r. IsWord circuit.new int r) }
    ensures value { IfOk result (λ r. (w : World) → word_value circuit.new r w ≡ truth_of (is_equal kind (word_value circuit.old a.now w) 0)) }
{
    let zero = is_pattern(circuit, a, 0)?;
    Ok(test_word(zero))
}

/// The value of an operator with two operands, and a literal that says that it has one: of a comparison an int, and of
/// the others a value of the first operand's kind (6.5.5 to 6.5.12). Only at a shift may the operands differ in kind.
pub(crate) fn binary(
    circuit: &mut Circuit,
    op: BinaryOp,
    a: &Word,
    kind: Kind,
    b: &Word,
    right: Kind,
) -> Result<(Word, Lit), Memory>
    requires left { IsWord circuit.old kind a.now }
    requires right { IsWord circuit.old right b.now }
    requires same { is_shift op ≡ false → right ≡ kind }
    requires room { length circuit.old + (most_wires (binary_weight op kind.width) + 1) ≤ 2 ^ 30 }
    ensures grows { Grows circuit.old circuit.new (most_wires (binary_weight op kind.width) + 1) }
    ensures word { IfOk result (λ r. IsWord circuit.new (binary_kind op kind) r.0) }
    ensures wire { IfOk result (λ r. IsWire circuit.new r.1) }
    ensures value { IfOk result (λ r. (w : World) → outcome_in circuit.new r w ≡ binary_value op kind right (word_value circuit.old a.now w) (word_value circuit.old b.now w)) }
{
    match op {
        BinaryOp::Add => Ok((add(circuit, a, b, kind)?, Lit::YES)),
        BinaryOp::Sub => Ok((sub(circuit, a, b, kind)?, Lit::YES)),
        BinaryOp::Mul => Ok((mul(circuit, a, b, kind)?, Lit::YES)),
        BinaryOp::Div => div(circuit, a, b, kind),
        BinaryOp::Rem => rem(circuit, a, b, kind),
        BinaryOp::Shl => shl(circuit, a, kind, b, right),
        BinaryOp::Shr => shr(circuit, a, kind, b, right),
        BinaryOp::And => Ok((and(circuit, a, b, kind)?, Lit::YES)),
        BinaryOp::Or => Ok((or(circuit, a, b, kind)?, Lit::YES)),
        BinaryOp::Xor => Ok((xor(circuit, a, b, kind)?, Lit::YES)),
        BinaryOp::Less => Ok((less_word(circuit, a, b, kind, true)?, Lit::YES)),
        BinaryOp::LessEqual => Ok((less_word(circuit, b, a, kind, false)?, Lit::YES)),
        BinaryOp::Greater => Ok((less_word(circuit, b, a, kind, true)?, Lit::YES)),
        BinaryOp::GreaterEqual => Ok((less_word(circuit, a, b, kind, false)?, Lit::YES)),
        BinaryOp::Equal => Ok((equal_word(circuit, a, b, kind, true)?, Lit::YES)),
        BinaryOp::NotEqual => Ok((equal_word(circuit, a, b, kind, false)?, Lit::YES)),
    }
}

/// The same of two operands' words, each with the literal that says that it has a value: the literal answered says that
/// all three have one.
pub(crate) fn operated(
    circuit: &mut Circuit,
    op: BinaryOp,
    first: &(Word, Lit),
    kind: Kind,
    second: &(Word, Lit),
    right: Kind,
) -> Result<(Word, Lit), Memory>
    requires left { IsWord circuit.old kind first.now.0 }
    requires left_wire { IsWire circuit.old first.now.1 }
    requires right { IsWord circuit.old right second.now.0 }
    requires right_wire { IsWire circuit.old second.now.1 }
    requires same { is_shift op ≡ false → right ≡ kind }
    requires room { length circuit.old + most_expression_wires (binary_weight op kind.width) ≤ 2 ^ 30 }
    ensures grows { Grows circuit.old circuit.new (most_expression_wires (binary_weight op kind.width)) }
    ensures word { IfOk result (λ r. IsWord circuit.new (binary_kind op kind) r.0) }
    ensures wire { IfOk result (λ r. IsWire circuit.new r.1) }
    ensures value { IfOk result (λ r. (w : World) → outcome_in circuit.new r w ≡ option_and_then (λ a. option_and_then (λ b. binary_value op kind right a b) (outcome_in circuit.old second.now w)) (outcome_in circuit.old first.now w)) }
{
    let (word, named) = binary(circuit, op, &first.0, kind, &second.0, right)?;
    let operands = both(circuit, first.1, second.1)?;
    let fine = both(circuit, operands, named)?;
    Ok((word, fine))
}

/// The int 1 where it is as expected whether a value is below another of its kind, and 0 where not (6.5.8p6).
fn less_word(
    circuit: &mut Circuit,
    a: &Word,
    b: &Word,
    kind: Kind,
    expected: bool,
) -> Result<Word, Memory>
    requires left { IsWord circuit.old kind a.now }
    requires right { IsWord circuit.old kind b.now }
    requires room { length circuit.old + (most_wires (sum_weight kind.width) + 1) ≤ 2 ^ 30 }
    ensures grows { Grows circuit.old circuit.new (most_wires (sum_weight kind.width) + 1) }
    ensures word { IfOk result (λ r. IsWord circuit.new int r) }
    ensures value { IfOk result (λ r. (w : World) → let is = is_less kind (word_value circuit.old a.now w) (word_value circuit.old b.now w) in word_value circuit.new r w ≡ truth_of (if expected then is else not is)) }
{
    let test = less(circuit, a, b, kind)?;
    let same = matched(circuit, test, expected)?;
    Ok(test_word(same))
}

/// The int 1 where it is as expected whether two values of a kind are equal, and 0 where not (6.5.9p3).
fn equal_word(
    circuit: &mut Circuit,
    a: &Word,
    b: &Word,
    kind: Kind,
    expected: bool,
) -> Result<Word, Memory>
    requires left { IsWord circuit.old kind a.now }
    requires right { IsWord circuit.old kind b.now }
    requires room { length circuit.old + (most_wires (sum_weight kind.width) + 1) ≤ 2 ^ 30 }
    ensures grows { Grows circuit.old circuit.new (most_wires (sum_weight kind.width) + 1) }
    ensures word { IfOk result (λ r. IsWord circuit.new int r) }
    ensures value { IfOk result (λ r. (w : World) → let is = is_equal kind (word_value circuit.old a.now w) (word_value circuit.old b.now w) in word_value circuit.new r w ≡ truth_of (if expected then is else not is)) }
{
    let test = equal(circuit, a, b, kind)?;
    let same = matched(circuit, test, expected)?;
    Ok(test_word(same))
}
