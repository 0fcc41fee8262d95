// Words of inputs, and worlds.
ghost use Rattle.std.specs.Prelude.{◌≡◌, ◌+◌, ◌≤◌, ◌^◌, All, IfOk, length};
ghost use Rattle.circuit.specs.Truth.{Extends};
ghost use Rattle.circuit.specs.Wires.{IsWire, lit_holds};

use bit_words::{Word, constant};
use circuit::{Circuit, Memory};
use std::alloc::Global;

/// A word whose literals are 64 new inputs.
pub fn free_word(circuit: &mut Circuit) -> Result<Word, Memory>
    requires room { length circuit.old + 64 ≤ 2 ^ 30 }
    ensures older { Extends IsWire lit_holds circuit.old circuit.new }
    ensures used { length circuit.new ≤ length circuit.old + 64 }
    ensures wires { IfOk result (λ r. All (IsWire circuit.new) r) }
{
    let mut bits = constant(0);
    for i in 0..64usize {
        bits[i] = circuit.input()?;
    }
    Ok(bits)
}

/// Two words of 64 new inputs each.
#[tactic(auto, using(circuit::specs::Bits::bits_stay))]
pub fn free_pair(circuit: &mut Circuit) -> Result<(Word, Word), Memory>
    requires room { length circuit.old + 128 ≤ 2 ^ 30 }
    ensures used { length circuit.new ≤ length circuit.old + 128 }
    ensures wires { IfOk result (λ r. All (IsWire circuit.new) r.0 × All (IsWire circuit.new) r.1) }
{
    let first = free_word(circuit)?;
    let second = free_word(circuit)?;
    Ok((first, second))
}

/// The world in which the words of inputs are these patterns, in the order in which they were made.
pub fn world_of(alloc: Global, patterns: &[u64]) -> Result<Vec<bool>, Memory> {
    let mut world = Vec::new(alloc);
    for pattern in patterns {
        push_bits(&mut world, *pattern)?;
    }
    Ok(world)
}

/// The bits of a pattern, the lowest first.
pub(crate) fn push_bits(world: &mut Vec<bool>, pattern: u64) -> Result<(), Memory> {
    for i in 0..64u32 {
        world.push(pattern >> i & 1 == 1)?;
    }
    Ok(())
}
