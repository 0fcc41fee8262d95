//! Gates, and how far each lets a circuit grow. The words of this crate are made of them, and what stands on it may use them.
ghost use Rattle.std.specs.Prelude.{◌≡◌, ◌+◌, ◌≤◌, ◌<◌, ◌^◌, Bool, if◌then◌else◌, ◌&&◌, ◌||◌, not, IfOk, length};
ghost use Rattle.circuit.specs.Truth.{World};
ghost use Rattle.circuit.specs.Wires.{IsWire, lit_holds};
ghost use Rattle.bit_words.specs.Words.{Grows};
ghost use Rattle.bit_words.specs.Rows.{xor};

use circuit::{Circuit, Lit, Memory, Truth};

/// A literal that holds where both do.
#[tactic(auto, using(crate::proofs::Steps::grows_gate))]
pub fn both(circuit: &mut Circuit, a: Lit, b: Lit) -> Result<Lit, Memory>
    requires left { IsWire circuit.old a }
    requires right { IsWire circuit.old b }
    requires room { length circuit.old + 1 ≤ 2 ^ 30 }
    ensures grows { Grows circuit.old circuit.new 1 }
    ensures wire { IfOk result (λ c. IsWire circuit.new c) }
    ensures value { IfOk result (λ c. (w : World) → lit_holds circuit.new c w ≡ (lit_holds circuit.old a w && lit_holds circuit.old b w)) }
{
    circuit.and(a, b)
}

/// A literal that holds where one does.
#[tactic(auto, using(crate::proofs::Steps::grows_gate))]
pub fn either(circuit: &mut Circuit, a: Lit, b: Lit) -> Result<Lit, Memory>
    requires left { IsWire circuit.old a }
    requires right { IsWire circuit.old b }
    requires room { length circuit.old + 1 ≤ 2 ^ 30 }
    ensures grows { Grows circuit.old circuit.new 1 }
    ensures wire { IfOk result (λ c. IsWire circuit.new c) }
    ensures value { IfOk result (λ c. (w : World) → lit_holds circuit.new c w ≡ (lit_holds circuit.old a w || lit_holds circuit.old b w)) }
{
    circuit.or(a, b)
}

/// A literal that holds where this one doesn't.
#[tactic(auto, using(crate::proofs::Steps::grows_gate))]
pub fn inverse(circuit: &mut Circuit, a: Lit) -> Result<Lit, Memory>
    requires wire { IsWire circuit.old a }
    requires room { length circuit.old + 1 ≤ 2 ^ 30 }
    ensures grows { Grows circuit.old circuit.new 1 }
    ensures wire { IfOk result (λ c. IsWire circuit.new c) }
    ensures value { IfOk result (λ c. (w : World) → lit_holds circuit.new c w ≡ not (lit_holds circuit.old a w)) }
{
    circuit.not(a)
}

/// The sum of two bits, and what is carried to the next place.
pub(crate) fn half_sum(circuit: &mut Circuit, a: Lit, b: Lit) -> Result<(Lit, Lit), Memory>
    requires left { IsWire circuit.old a }
    requires right { IsWire circuit.old b }
    requires room { length circuit.old + 4 ≤ 2 ^ 30 }
    ensures grows { Grows circuit.old circuit.new 4 }
    ensures wires { IfOk result (λ c. IsWire circuit.new c.0 × IsWire circuit.new c.1) }
    ensures sum { IfOk result (λ c. (w : World) → lit_holds circuit.new c.0 w ≡ xor (lit_holds circuit.old a w) (lit_holds circuit.old b w)) }
    ensures carry { IfOk result (λ c. (w : World) → lit_holds circuit.new c.1 w ≡ (lit_holds circuit.old a w && lit_holds circuit.old b w)) }
{
    let carry = both(circuit, a, b)?;
    let some = either(circuit, a, b)?;
    let no_carry = inverse(circuit, carry)?;
    let sum = both(circuit, some, no_carry)?;
    Ok((sum, carry))
}

/// The sum of three bits, and what is carried to the next place.
pub(crate) fn full_sum(
    circuit: &mut Circuit,
    a: Lit,
    b: Lit,
    carry: Lit,
) -> Result<(Lit, Lit), Memory>
    requires left { IsWire circuit.old a }
    requires right { IsWire circuit.old b }
    requires carry { IsWire circuit.old carry }
    requires room { length circuit.old + 9 ≤ 2 ^ 30 }
    ensures grows { Grows circuit.old circuit.new 9 }
    ensures wires { IfOk result (λ c. IsWire circuit.new c.0 × IsWire circuit.new c.1) }
    ensures sum { IfOk result (λ c. (w : World) → lit_holds circuit.new c.0 w ≡ xor (xor (lit_holds circuit.old a w) (lit_holds circuit.old b w)) (lit_holds circuit.old carry w)) }
    ensures next { IfOk result (λ c. (w : World) → lit_holds circuit.new c.1 w ≡ ((lit_holds circuit.old a w && lit_holds circuit.old b w) || (xor (lit_holds circuit.old a w) (lit_holds circuit.old b w) && lit_holds circuit.old carry w))) }
{
    let (half, first) = half_sum(circuit, a, b)?;
    let (sum, second) = half_sum(circuit, half, carry)?;
    let next = either(circuit, first, second)?;
    Ok((sum, next))
}

/// The first literal where the test holds, and the second where not. It makes no gate where they are one.
#[tactic(auto, using(crate::proofs::Steps::grows_none, circuit::proofs::GateEquality::same_is, crate::proofs::Truths::chosen_of_one))]
pub(crate) fn choice(circuit: &mut Circuit, test: Lit, yes: Lit, no: Lit) -> Result<Lit, Memory>
    requires test { IsWire circuit.old test }
    requires left { IsWire circuit.old yes }
    requires right { IsWire circuit.old no }
    requires room { length circuit.old + 4 ≤ 2 ^ 30 }
    ensures grows { Grows circuit.old circuit.new 4 }
    ensures wire { IfOk result (λ c. IsWire circuit.new c) }
    ensures value { IfOk result (λ c. (w : World) → lit_holds circuit.new c w ≡ (if lit_holds circuit.old test w then lit_holds circuit.old yes w else lit_holds circuit.old no w)) }
{
    if yes == no {
        return Ok(yes);
    }
    let first = both(circuit, test, yes)?;
    let other = inverse(circuit, test)?;
    let second = both(circuit, other, no)?;
    let chosen = either(circuit, first, second)?;
    Ok(chosen)
}
