// The calls of `bit_words`, by their operators.
ghost use Rattle.std.specs.Prelude.{◌≤◌, All, IfOk, length};
ghost use Rattle.circuit.specs.Wires.{IsWire};
ghost use Rattle.c_values.specs.Kind.{IsKind};

use bit_words::{
    Word, add, and, choose, constant, div, equal, extended, less, mul, or, rem, shl, shr, sub, xor,
};
use c_values::{BinaryOp, Kind};
use circuit::{Circuit, Lit, Memory};

// A test as the int 1 or 0.
fn test_word(circuit: &mut Circuit, test: Lit) -> Result<(Word, Lit), Memory>
    requires test { IsWire circuit.old test }
    requires few { length circuit.old ≤ 100_000_000 }
    ensures wires { IfOk result (λ r. All (IsWire circuit.new) r.0 × IsWire circuit.new r.1) }
{
    let word = choose(circuit, test, &constant(1), &constant(0))?;
    Ok((word, Lit::YES))
}

/// What the call of an operator answers over what a kind has of two words. A shift's amount is of the same kind, and each
/// operator that is no call is taken for `==`.
pub fn answer(
    circuit: &mut Circuit,
    op: BinaryOp,
    a: &Word,
    b: &Word,
    kind: Kind,
) -> Result<(Word, Lit), Memory>
    requires kind { IsKind kind }
    requires left { All (IsWire circuit.old) a.now }
    requires right { All (IsWire circuit.old) b.now }
    requires few { length circuit.old ≤ 1000 }
    ensures wires { IfOk result (λ r. All (IsWire circuit.new) r.0 × IsWire circuit.new r.1) }
{
    let a = extended(a, kind);
    let b = extended(b, kind);
    match op {
        BinaryOp::Add => Ok((add(circuit, &a, &b, kind)?, Lit::YES)),
        BinaryOp::Sub => Ok((sub(circuit, &a, &b, kind)?, Lit::YES)),
        BinaryOp::Mul => Ok((mul(circuit, &a, &b, kind)?, Lit::YES)),
        BinaryOp::And => Ok((and(circuit, &a, &b, kind)?, Lit::YES)),
        BinaryOp::Or => Ok((or(circuit, &a, &b, kind)?, Lit::YES)),
        BinaryOp::Xor => Ok((xor(circuit, &a, &b, kind)?, Lit::YES)),
        BinaryOp::Div => div(circuit, &a, &b, kind),
        BinaryOp::Rem => rem(circuit, &a, &b, kind),
        BinaryOp::Shl => shl(circuit, &a, kind, &b, kind),
        BinaryOp::Shr => shr(circuit, &a, kind, &b, kind),
        BinaryOp::Less => {
            let test = less(circuit, &a, &b, kind)?;
            test_word(circuit, test)
        }
        _ => {
            let test = equal(circuit, &a, &b, kind)?;
            test_word(circuit, test)
        }
    }
}
