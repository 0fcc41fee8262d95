// The guards of places where ways meet.
ghost use Rattle.std.specs.Prelude.{◌≡◌, ◌⊎◌, ◌+◌, ◌≤◌, ◌^◌, ◌||◌, IfOk, IfSome, IsTrue, length};
ghost use Rattle.circuit.specs.Truth.{World};
ghost use Rattle.circuit.specs.Sharing.{inverse};
ghost use Rattle.circuit.specs.Wires.{IsWire, lit_holds};
ghost use Rattle.bit_words.specs.Words.{Grows};
ghost use Rattle.unwinder.specs.Guards.{IsConjunction, IsOtherWay};

use bit_words::gates::either;
use circuit::{Circuit, Gate, Lit, Memory};

/// A literal that holds where one of two guards does. Those of the two ways of a test, `p and t` and `p and not t`, come to
/// `p`, the guard before the test, and no gate is made.
pub(crate) fn either_guard(circuit: &mut Circuit, a: Lit, b: Lit) -> Result<Lit, Memory>
    requires left { IsWire circuit.old a }
    requires right { IsWire circuit.old b }
    requires room { length circuit.old + 1 ≤ 2 ^ 30 }
    ensures grows { Grows circuit.old circuit.new 1 }
    ensures wire { IfOk result (λ c. IsWire circuit.new c) }
    ensures value { IfOk result (λ c. (w : World) → lit_holds circuit.new c w ≡ (lit_holds circuit.old a w || lit_holds circuit.old b w)) }
{
    if let Some(guard) = before_test(circuit, a, b) {
        return Ok(guard);
    }
    either(circuit, a, b)
}

/// The guard before a test whose two ways have these guards.
fn before_test(circuit: &Circuit, a: Lit, b: Lit) -> Option<Lit>
    requires left { IsWire circuit.now a }
    requires right { IsWire circuit.now b }
    ensures wire { IfSome result (λ guard. IsWire circuit.now guard) }
    ensures value { IfSome result (λ guard. (w : World) → lit_holds circuit.now guard w ≡ (lit_holds circuit.now a w || lit_holds circuit.now b w)) }
{
    let one = parts_of(circuit, a)?;
    let other = parts_of(circuit, b)?;
    if is_other_way(one.0, one.1, other) {
        return Some(one.0);
    }
    if is_other_way(one.1, one.0, other) {
        return Some(one.1);
    }
    None
}

/// The literals of whose conjunction a literal is.
fn parts_of(circuit: &Circuit, lit: Lit) -> Option<(Lit, Lit)>
    requires { IsWire circuit.now lit }
    ensures { IfSome result (λ parts. IsConjunction circuit.now lit parts.0 parts.1) }
{
    if lit.negated() || lit.wire() == 0 {
        return None;
    }
    match circuit.gate(lit.wire()) {
        Gate::Input { .. } => None,
        Gate::And { left, right } => Some((left, right)),
    }
}

/// Whether two literals are a guard and the opposite of a test, in either order.
fn is_other_way(guard: Lit, test: Lit, parts: (Lit, Lit)) -> bool
    ensures { IsTrue result → IsOtherWay guard test parts }
{
    (is_same(parts.0, guard) && is_opposite(parts.1, test))
        || (is_same(parts.1, guard) && is_opposite(parts.0, test))
}

fn is_same(a: Lit, b: Lit) -> bool
    ensures { IsTrue result → a ≡ b }
{
    a.wire() == b.wire() && a.negated() == b.negated()
}

fn is_opposite(a: Lit, b: Lit) -> bool
    ensures { IsTrue result → a ≡ inverse b }
{
    a.wire() == b.wire() && a.negated() != b.negated()
}
