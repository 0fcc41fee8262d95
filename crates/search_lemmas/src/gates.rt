// Clauses of gates.
ghost use Rattle.std.specs.Prelude.{◌≡◌, ◌∷◌, [], neg_ℤ, pos, if◌then◌else◌, IsTrue};
ghost use Rattle.circuit.specs.Sharing.{inverse};
ghost use Rattle.search_lemmas.specs.Holding.{HoldsAlways, IsKnown};
ghost use Rattle.search_lemmas.specs.Naming.{lit_number};

use crate::naming::named;
use circuit::{Circuit, Gate, Lit};

/// Whether a number is that of a wire, or that below 0 of its negation.
fn is_signed(number: i32, wire: u32, negated: bool) -> bool
    ensures { IsTrue result → number ≡ (if negated then neg_ℤ (pos wire) else pos wire) }
{
    number.unsigned_abs() == wire && (number < 0) == negated
}

/// Whether a number is that of a literal of a circuit.
fn is_literal(number: i32, lit: Lit) -> bool
    ensures { IsTrue result → number ≡ lit_number lit }
{
    is_signed(number, lit.wire(), lit.negated())
}

/// Whether a number is that of the literal of the other sign.
fn is_inverse(number: i32, lit: Lit) -> bool
    ensures { IsTrue result → number ≡ lit_number (inverse lit) }
{
    is_signed(number, lit.wire(), !lit.negated())
}

/// Whether a wire implies a part of its gate by this clause.
fn is_part(circuit: &Circuit, part: i32, whole: i32) -> bool
    ensures { IsTrue result → HoldsAlways circuit.now (part ∷ whole ∷ []) }
{
    let wire = whole.unsigned_abs();
    if wire == 0 || wire > circuit.wires() {
        return false;
    }
    if !is_signed(whole, wire, true) {
        return false;
    }
    match circuit.gate(wire) {
        Gate::Input { .. } => false,
        Gate::And { left, right } => is_literal(part, left) || is_literal(part, right),
    }
}

/// Whether both parts of a wire's gate imply it by this clause.
fn is_whole(circuit: &Circuit, first: i32, second: i32, whole: i32) -> bool
    ensures { IsTrue result → HoldsAlways circuit.now (first ∷ second ∷ whole ∷ []) }
{
    let wire = whole.unsigned_abs();
    if wire == 0 || wire > circuit.wires() {
        return false;
    }
    if !is_signed(whole, wire, false) {
        return false;
    }
    match circuit.gate(wire) {
        Gate::Input { .. } => false,
        Gate::And { left, right } => is_inverse(first, left) && is_inverse(second, right),
    }
}

/// Whether a clause is one of a gate's, where `wires` lists the wires of the variables from 1 on.
pub(crate) fn is_of_gate(circuit: &Circuit, wires: &[Option<u32>], literals: &[i32]) -> bool
    ensures { IsTrue result → IsKnown circuit.now wires.now literals.now }
{
    match literals {
        [part, whole] => match (named(wires, *part), named(wires, *whole)) {
            (Some(part), Some(whole)) => is_part(circuit, part, whole),
            _ => false,
        },
        [first, second, whole] => {
            match (
                named(wires, *first),
                named(wires, *second),
                named(wires, *whole),
            ) {
                (Some(first), Some(second), Some(whole)) => {
                    is_whole(circuit, first, second, whole)
                }
                _ => false,
            }
        }
        _ => false,
    }
}
