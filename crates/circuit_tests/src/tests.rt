// Expected values: truth tables.
ghost use Rattle.std.specs.Prelude.{◌≡◌, ◌+◌, ◌<◌, ◌^◌, IfOk, All, length};
ghost use Rattle.std.specs.List.{list_all};
ghost use Rattle.circuit.specs.Truth.{World, Extends, HasRoom};
ghost use Rattle.circuit.specs.Wires.{IsWire};

use circuit::{Circuit, Gate, Lit, Memory, Plain, Truth};
use std::alloc::Global;
use std::test::Fail;

// A bit that holds where all of them hold: a row of gates over any truth.
fn all_of<T: Truth>(truth: &mut T, bits: &[T::Bit]) -> Result<T::Bit, Memory>
    requires bits { All (T.is_bit truth.old) bits.now }
    requires room { HasRoom T.counts_wires (T.wires truth.old + length bits.now) }
    ensures older { Extends T.is_bit T.holds truth.old truth.new }
    ensures grown { T.grows_to truth.old truth.new }
    ensures bit { IfOk result (λ c. T.is_bit truth.new c) }
    ensures value { IfOk result (λ c. (w : World) → T.holds truth.new c w ≡ list_all (λ b. T.holds truth.old b w) bits.now) }
{
    let mut all = truth.yes();
    for bit in bits {
        all = truth.and(all, *bit)?;
    }
    Ok(all)
}

// Whether a row of gates finds memory. The circuit is cut back then, and is what it was.
fn finds_memory(circuit: &mut Circuit, bits: &[Lit]) -> bool
    requires bits { All (IsWire circuit.old) bits.now }
    requires room { length circuit.old + length bits.now < 2 ^ 30 }
    ensures { circuit.new ≡ circuit.old }
{
    let before = circuit.wires();
    let found = all_of(circuit, bits).is_ok();
    circuit.cut(before);
    found
}

const WORLDS: [(bool, bool); 4] = [(false, false), (false, true), (true, false), (true, true)];

// What two inputs and their conjunction hold.
fn conjunction(alloc: Global, x: bool, y: bool) -> Result<(bool, bool, bool), Memory> {
    let mut circuit = Circuit::new(alloc);
    let a = circuit.input()?;
    let b = circuit.input()?;
    let both = circuit.and(a, b)?;
    let world = [x, y];
    let first = circuit.value(a, &world)?;
    let second = circuit.value(b, &world)?;
    Ok((first, second, circuit.value(both, &world)?))
}

// What a disjunction holds, and its negation.
fn disjunction(alloc: Global, x: bool, y: bool) -> Result<(bool, bool), Memory> {
    let mut circuit = Circuit::new(alloc);
    let a = circuit.input()?;
    let b = circuit.input()?;
    let some = circuit.or(a, b)?;
    let world = [x, y];
    let held = circuit.value(some, &world)?;
    let neither = circuit.not(some)?;
    Ok((held, circuit.value(neither, &world)?))
}

#[test]
fn gates_of_a_circuit(rt: HostRuntime) -> Result<(), Fail> {
    for (x, y) in WORLDS {
        assert_eq!(rt; conjunction(rt.alloc(), x, y)?, (x, y, x && y));
        assert_eq!(rt; disjunction(rt.alloc(), x, y)?, (x || y, !x && !y));
    }
    Ok(())
}

// Past the end of the world an input is no.
#[test]
fn short_worlds(rt: HostRuntime) -> Result<(), Fail> {
    let mut circuit = Circuit::new(rt.alloc());
    let a = circuit.input()?;
    assert!(rt; circuit.value(a, &[true])?);
    assert!(rt; !circuit.value(a, &[])?);
    assert!(rt; circuit.value(Lit::YES, &[])?);
    assert!(rt; !circuit.value(Lit::NO, &[])?);
    assert!(rt; circuit.is_known_no(Lit::NO) && circuit.is_known_yes(Lit::YES));
    assert!(rt; !circuit.is_known_no(a) && !circuit.is_known_yes(a));
    Ok(())
}

#[test]
fn gates_of_recorded_bits(rt: HostRuntime) -> Result<(), Fail> {
    let mut plain = Plain;
    for (x, y) in WORLDS {
        assert_eq!(rt; plain.and(x, y)?, x && y);
        assert_eq!(rt; plain.or(x, y)?, x || y);
        assert_eq!(rt; plain.not(x)?, !x);
        assert_eq!(rt; plain.is_known_no(x), !x);
        assert_eq!(rt; plain.is_known_yes(x), x);
        assert_eq!(rt; all_of(&mut plain, &[x, true, y])?, x && y);
    }
    assert!(rt; plain.yes() && !plain.no());
    Ok(())
}

// Each wire is computed once: a chain in which each turn doubles the paths to the one before has 2^50000 of them. It holds
// where its first input does.
#[test]
fn long_chain(rt: HostRuntime) -> Result<(), Fail> {
    let alloc = rt.alloc();
    let mut circuit = Circuit::new(alloc);
    let mut last = circuit.input()?;
    let other = circuit.input()?;
    for _ in 0..50_000u32 {
        let wider = circuit.or(last, other)?;
        last = circuit.and(last, wider)?;
    }
    assert_eq!(rt; circuit.wires(), 100_002);
    assert!(rt; circuit.value(last, &[true, false])?);
    assert!(rt; !circuit.value(last, &[false, true])?);
    Ok(())
}

// Structural hashing: two conjunctions of the same inputs, the second exchanged, come to one gate, also after a cut.
#[test]
fn shared_gates(rt: HostRuntime) -> Result<(), Fail> {
    let mut circuit = Circuit::new(rt.alloc());
    let a = circuit.input()?;
    let b = circuit.input()?;
    let both = circuit.and(a, b)?;
    assert_eq!(rt; circuit.and(b, a)?, both);
    assert_eq!(rt; circuit.wires(), 3);
    circuit.cut(2);
    assert_eq!(rt; circuit.wires(), 2);
    assert_eq!(rt; circuit.and(b, a)?, both);
    assert_eq!(rt; circuit.wires(), 3);
    Ok(())
}

#[test]
fn circuits_cut_back(rt: HostRuntime) -> Result<(), Fail> {
    let mut circuit = Circuit::new(rt.alloc());
    let a = circuit.input()?;
    let b = circuit.input()?;
    assert!(rt; finds_memory(&mut circuit, &[a, b, a]));
    assert_eq!(rt; circuit.wires(), 2);
    Ok(())
}

// Conjunctions that need no gate.
#[test]
fn folded_gates(rt: HostRuntime) -> Result<(), Fail> {
    let mut circuit = Circuit::new(rt.alloc());
    let a = circuit.input()?;
    let not_a = circuit.not(a)?;
    assert_eq!(rt; circuit.and(a, a)?, a);
    assert_eq!(rt; circuit.and(not_a, a)?, Lit::NO);
    assert_eq!(rt; circuit.and(Lit::YES, not_a)?, not_a);
    assert_eq!(rt; circuit.and(a, Lit::NO)?, Lit::NO);
    assert_eq!(rt; circuit.or(a, not_a)?, Lit::YES);
    assert_eq!(rt; circuit.wires(), 1);
    Ok(())
}

// Of the two inputs' conjunction and its negation, what the wires are and what is left after a cut.
#[test]
fn gates_by_wire(rt: HostRuntime) -> Result<(), Fail> {
    let mut circuit = Circuit::new(rt.alloc());
    let a = circuit.input()?;
    let b = circuit.input()?;
    assert_eq!(rt; circuit.wires(), 2);
    let both = circuit.and(a, b)?;
    let not_both = circuit.not(both)?;
    assert!(rt; !both.negated() && not_both.negated() && Lit::NO.negated());
    assert_eq!(rt; Lit::NO.wire(), 0);
    assert_eq!(rt; circuit.wires(), 3);
    assert_eq!(rt; not_both.wire(), 3);
    assert_eq!(rt; circuit.gate(2), Gate::Input { number: 1 });
    assert_eq!(rt; circuit.gate(3), Gate::And { left: a, right: b });
    circuit.cut(2);
    assert_eq!(rt; circuit.wires(), 2);
    assert!(rt; circuit.value(b, &[false, true])?);
    Ok(())
}
