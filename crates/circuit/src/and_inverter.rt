ghost use Rattle.std.specs.Prelude.{◌≡◌, ◌∷◌, [], ◌++◌, ◌+◌, ◌-◌, ◌≤◌, ◌<◌, ◌^◌, ◌&&◌, ◌||◌, List, Bool, true, false, not, length, take, drop, IfOk, OnErr, OnOk, None, Ok, Some, slice_get, slice_index_or};
ghost use Rattle.circuit.specs.Truth.{World, Extends};
ghost use Rattle.circuit.specs.Growth.{GrowsTo, grows_to_self, grows_to_again};
ghost use Rattle.circuit.specs.Sharing.{and_gate, and_lit, folded, gates_with_and, inverse, known_and, lit_of};
ghost use Rattle.circuit.specs.declared.lit.Gate.TheVariants.{Input};
ghost use Rattle.circuit.specs.Wires.{HasNumber, IsReduced, IsWire, PartsUpTo, gate_value, held, input_count, lit_holds, lit_value};

use crate::lit::{Gate, Lit};
use crate::truth::{Memory, Truth};
use indexmap::IndexSet;
use std::alloc::Global;
use std::marker::Model;

/// An and-inverter graph. Contracts see the list of its gates: gate k makes wire k + 1 of wires below. The gates stand in
/// a hash set in their order, so that a cut forgets those that it drops without memory.
#[derive(Debug, Drop)]
pub struct Circuit {
    gates: IndexSet<Gate>,
    inputs: u32,
}

impl Model for Circuit {
    ghost use Rattle.std.specs.Prelude.{◌≡◌, List};
    ghost use Rattle.circuit.specs.declared.lit.Gate.{Gate};
    ghost use Rattle.circuit.specs.Wires.{IsCircuit, input_count};

    ghost Value = { List Gate };

    ghost view = { λ it. it.gates.keys };

    ghost invariant = { λ it. (it.inputs ≡ input_count it.gates.keys) × IsCircuit it.gates.keys };
}

impl Circuit {
    /// A circuit without wires but for the constant.
    pub fn new(alloc: Global) -> Circuit
        ensures { result ≡ [] }
    {
        Circuit {
            gates: IndexSet::new(alloc),
            inputs: 0,
        }
    }

    /// A new input, on a wire of its own. In a world it is the value at the place of its number, which counts inputs from 0.
    pub fn input(&mut self) -> Result<Lit, Memory>
        requires room { length self.old < 2 ^ 30 }
        ensures literal { IfOk result (λ c. c ≡ lit_of (length self.new)) }
        ensures gates { OnOk result (self.new ≡ self.old ++ Input (input_count self.old) ∷ []) }
        ensures older { Extends IsWire lit_holds self.old self.new }
        ensures used { length self.new ≤ length self.old + 1 }
        ensures bit { IfOk result (λ c. IsWire self.new c) }
        ensures value { IfOk result (λ c. (w : World) → lit_holds self.new c w ≡ slice_index_or w (input_count self.old) false) }
        ensures count { OnOk result (input_count self.new ≡ input_count self.old + 1) }
        ensures count_kept { OnErr result (self.new ≡ self.old) }
    {
        let number = self.inputs;
        let _ = self.gates.insert(Gate::Input { number })?;
        self.inputs = number + 1;
        Ok(positive(self.gates.len() as u32))
    }

    /// What a literal holds in the world of these values. Each wire is computed once.
    #[tactic(auto, using(crate::proofs::Gates::held_next))]
    pub fn value(&self, lit: Lit, inputs: &[bool]) -> Result<bool, Memory>
        requires { IsWire self.now lit }
        ensures { IfOk result (λ value. value ≡ lit_holds self.now lit inputs.now) }
    {
        let mut wires = Vec::with_capacity(*self.gates.allocator(), self.gates.len() + 1)?;
        wires.push(true)?;
        for gate in self.gates.as_slice() {
            wires.push(gate_value(&wires, inputs, *gate))?;
        }
        Ok(lit_value(&wires, lit))
    }

    /// How many wires are used. They are numbered from 1, and the constant isn't counted.
    pub fn wires(&self) -> u32
        ensures { result ≡ length self.now }
    {
        self.gates.len() as u32
    }

    /// What makes a wire. Inputs are numbered from 0 in order of their wires.
    #[tactic(auto, using(crate::proofs::Gates::gate_at))]
    pub fn gate(&self, wire: u32) -> Gate
        requires some { 0 < wire }
        requires within { wire ≤ length self.now }
        ensures value { slice_get self.now (wire - 1) ≡ Some result }
        ensures parts { PartsUpTo (wire - 1) result }
        ensures number { HasNumber (input_count (take (wire - 1) self.now)) result }
        ensures reduced { IsReduced result }
    {
        self.gates.as_slice()[wire as usize - 1]
    }

    /// Drops the wires after this many. It takes no memory.
    #[tactic(auto, using(crate::proofs::Gates::after_cut))]
    pub fn cut(&mut self, wires: u32)
        requires within { wires ≤ length self.old }
        requires inputs_stay { input_count (drop wires self.old) ≡ 0 }
        ensures gates { self.new ≡ take wires self.old }
        ensures kept { (l : Lit) → l.wire ≤ wires → (w : World) → lit_holds self.new l w ≡ lit_holds self.old l w }
        ensures inputs { input_count self.new ≡ input_count self.old }
        ensures back { (old : List Gate) → GrowsTo old self.old → wires ≡ length old → self.new ≡ old }
    {
        self.gates.truncate(wires as usize);
    }

    /// A literal that holds where both do: one that is known already, or that of a new gate (structural hashing).
    fn conjunction(&mut self, a: Lit, b: Lit) -> Result<Lit, Memory>
        requires left { IsWire self.old a }
        requires right { IsWire self.old b }
        requires room { length self.old < 2 ^ 30 }
        ensures literal { IfOk result (λ c. c ≡ and_lit self.old a b) }
        ensures gates { OnOk result (self.new ≡ gates_with_and self.old a b) }
        ensures grown { GrowsTo self.old self.new }
        ensures older { Extends IsWire lit_holds self.old self.new }
        ensures used { length self.new ≤ length self.old + 1 }
        ensures bit { IfOk result (λ c. IsWire self.new c) }
        ensures value { IfOk result (λ c. (w : World) → lit_holds self.new c w ≡ (lit_holds self.old a w && lit_holds self.old b w)) }
        ensures inputs { input_count self.new ≡ input_count self.old }
        ensures kept { OnErr result (self.new ≡ self.old) }
        ensures refused { OnErr result (known_and self.old a b ≡ None) }
    {
        if let Some(known) = folded(a, b) {
            return Ok(known);
        }
        let (place, _) = self.gates.insert_full(and_gate(a, b))?;
        Ok(positive(place as u32 + 1))
    }
}

impl Truth for Circuit {
    type Bit = Lit;

    ghost is_bit = { IsWire };

    ghost holds = { lit_holds };

    ghost wires = { length };

    ghost grows_to = { GrowsTo };

    ghost counts_wires = { true };

    ghost may_lack_memory = { true };

    ghost grows_to_self = { grows_to_self };

    ghost grows_to_again = { grows_to_again };

    #[tactic(auto, using(crate::proofs::Gates::constant_wire))]
    fn is_known_no(&self, bit: Lit) -> bool {
        bit.wire == 0 && bit.negated
    }

    #[tactic(auto, using(crate::proofs::Gates::constant_wire))]
    fn is_known_yes(&self, bit: Lit) -> bool {
        bit.wire == 0 && !bit.negated
    }

    #[tactic(auto, using(crate::proofs::Gates::constant_wire))]
    fn yes(&self) -> Lit {
        Lit::YES
    }

    #[tactic(auto, using(crate::proofs::Gates::constant_wire))]
    fn no(&self) -> Lit {
        Lit::NO
    }

    fn and(&mut self, a: Lit, b: Lit) -> Result<Lit, Memory>
        requires left { IsWire self.old a }
        requires right { IsWire self.old b }
        requires room { length self.old < 2 ^ 30 }
        ensures literal { IfOk result (λ c. c ≡ and_lit self.old a b) }
        ensures gates { OnOk result (self.new ≡ gates_with_and self.old a b) }
        ensures kept { OnErr result (self.new ≡ self.old) }
        ensures refused { OnErr result (known_and self.old a b ≡ None) }
        ensures grown { GrowsTo self.old self.new }
        ensures older { Extends IsWire lit_holds self.old self.new }
        ensures used { length self.new ≤ length self.old + 1 }
        ensures bit { IfOk result (λ c. IsWire self.new c) }
        ensures value { IfOk result (λ c. (w : World) → lit_holds self.new c w ≡ (lit_holds self.old a w && lit_holds self.old b w)) }
        ensures inputs { input_count self.new ≡ input_count self.old }
    {
        self.conjunction(a, b)
    }

    #[tactic(auto, using(crate::proofs::Gates::neither, crate::proofs::Gates::lit_not))]
    fn or(&mut self, a: Lit, b: Lit) -> Result<Lit, Memory>
        requires left { IsWire self.old a }
        requires right { IsWire self.old b }
        requires room { length self.old < 2 ^ 30 }
        ensures literal { IfOk result (λ c. c ≡ inverse (and_lit self.old (inverse a) (inverse b))) }
        ensures gates { OnOk result (self.new ≡ gates_with_and self.old (inverse a) (inverse b)) }
        ensures kept { OnErr result (self.new ≡ self.old) }
        ensures refused { OnErr result (known_and self.old (inverse a) (inverse b) ≡ None) }
        ensures grown { GrowsTo self.old self.new }
        ensures older { Extends IsWire lit_holds self.old self.new }
        ensures used { length self.new ≤ length self.old + 1 }
        ensures bit { IfOk result (λ c. IsWire self.new c) }
        ensures value { IfOk result (λ c. (w : World) → lit_holds self.new c w ≡ (lit_holds self.old a w || lit_holds self.old b w)) }
        ensures inputs { input_count self.new ≡ input_count self.old }
    {
        let neither = self.conjunction(inverse(a), inverse(b))?;
        Ok(inverse(neither))
    }

    #[tactic(auto, using(crate::specs::Growth::grows_to_self))]
    fn not(&mut self, a: Lit) -> Result<Lit, Memory>
        requires bit { IsWire self.old a }
        requires room { length self.old < 2 ^ 30 }
        ensures literal { result ≡ Ok (inverse a) }
        ensures gates { self.new ≡ self.old }
        ensures grown { GrowsTo self.old self.new }
        ensures older { Extends IsWire lit_holds self.old self.new }
        ensures used { length self.new ≤ length self.old + 1 }
        ensures bit { IfOk result (λ c. IsWire self.new c) }
        ensures value { IfOk result (λ c. (w : World) → lit_holds self.new c w ≡ not (lit_holds self.old a w)) }
        ensures inputs { input_count self.new ≡ input_count self.old }
    {
        Ok(inverse(a))
    }
}

/// The literal of a wire itself.
fn positive(wire: u32) -> Lit
    ensures { result ≡ lit_of wire }
{
    Lit {
        wire,
        negated: false,
    }
}

/// The literal of the other sign.
fn inverse(lit: Lit) -> Lit
    ensures { result ≡ inverse lit }
{
    Lit {
        wire: lit.wire,
        negated: !lit.negated,
    }
}

/// What a conjunction comes to by its parts alone: no where one is no or they are opposite, the other where one is yes, and
/// either where they are equal.
fn folded(a: Lit, b: Lit) -> Option<Lit>
    ensures { result ≡ folded a b }
{
    if a == Lit::NO || b == Lit::NO || a == inverse(b) {
        return Some(Lit::NO);
    }
    if a == Lit::YES {
        return Some(b);
    }
    if b == Lit::YES || a == b {
        return Some(a);
    }
    None
}

/// The gate of two literals, that with the lower wire first.
fn and_gate(a: Lit, b: Lit) -> Gate
    ensures { result ≡ and_gate a b }
{
    if a.wire < b.wire {
        Gate::And { left: a, right: b }
    } else {
        Gate::And { left: b, right: a }
    }
}

/// What a gate holds, from what the wires below hold.
fn gate_value(wires: &[bool], inputs: &[bool], gate: Gate) -> bool
    ensures { result ≡ gate_value wires.now inputs.now gate }
{
    match gate {
        Gate::Input { number } => inputs.get(number as usize).copied().unwrap_or(false),
        Gate::And { left, right } => lit_value(wires, left) && lit_value(wires, right),
    }
}

/// What a literal holds, from what the wires hold.
fn lit_value(wires: &[bool], lit: Lit) -> bool
    ensures { result ≡ lit_value wires.now lit }
{
    let held = wires.get(lit.wire as usize).copied().unwrap_or(false);
    held != lit.negated
}
