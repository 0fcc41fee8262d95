// What words are in a world.
ghost use Rattle.std.specs.Prelude.{◌≡◌, All, IfOk};
ghost use Rattle.circuit.specs.Wires.{IsWire};

use crate::inputs::{free_word, push_bits, world_of};
use bit_words::gates::{both, inverse};
use bit_words::{Word, equal, extended};
use c_values::Kind;
use circuit::{Circuit, Lit, Memory};
use std::alloc::Global;

/// The pattern that a word is in a world.
pub fn pattern_in(circuit: &Circuit, word: &Word, world: &[bool]) -> Result<u64, Memory>
    requires { All (IsWire circuit.now) word.now }
{
    let mut pattern = 0;
    for i in 0..64usize {
        if circuit.value(word[i], world)? {
            pattern |= 1u64 << i;
        }
    }
    Ok(pattern)
}

/// The pattern that a word is in a world where the literal beside it holds, and none where not.
pub fn value_in(
    circuit: &Circuit,
    word: &Word,
    exists: Lit,
    world: &[bool],
) -> Result<Option<u64>, Memory>
    requires word { All (IsWire circuit.now) word.now }
    requires exists { IsWire circuit.now exists }
{
    if circuit.value(exists, world)? {
        Ok(Some(pattern_in(circuit, word, world)?))
    } else {
        Ok(None)
    }
}

/// Gates that compare a word and the literal beside it with a further word of inputs, which the next 64 inputs are. The
/// first literal says that the literal holds and that the two words are the same, and the second that it doesn't hold.
pub fn compared(circuit: &mut Circuit, word: &Word, exists: Lit) -> Result<(Lit, Lit), Memory>
    requires word { All (IsWire circuit.old) word.now }
    requires exists { IsWire circuit.old exists }
    ensures { IfOk result (λ r. IsWire circuit.new r.0 × IsWire circuit.new r.1) }
{
    if circuit.wires() > 1 << 29 {
        return Err(Memory);
    }
    let want = free_word(circuit)?;
    let word = extended(word, Kind::UNSIGNED_LONG);
    let want = extended(&want, Kind::UNSIGNED_LONG);
    let same = equal(circuit, &word, &want, Kind::UNSIGNED_LONG)?;
    let right = both(circuit, exists, same)?;
    let missing = inverse(circuit, exists)?;
    Ok((right, missing))
}

/// Whether the word that was compared is this in the world of some patterns, or has no value where none is wanted.
pub fn gives(
    alloc: Global,
    circuit: &Circuit,
    tests: (Lit, Lit),
    patterns: &[u64],
    want: Option<u64>,
) -> Result<bool, Memory>
    requires right { IsWire circuit.now tests.0 }
    requires missing { IsWire circuit.now tests.1 }
{
    let mut world = world_of(alloc, patterns)?;
    push_bits(&mut world, want.unwrap_or(0))?;
    let test = if want.is_some() { tests.0 } else { tests.1 };
    circuit.value(test, &world)
}
