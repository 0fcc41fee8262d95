// Words of one bit, and words that are one pattern.
ghost use Rattle.std.specs.Prelude.{◌≡◌, ◌+◌, ◌*◌, ◌≤◌, ◌<◌, ◌^◌, ◌==◌, ◌&&◌, not, if◌then◌else◌, All, IfOk, List, length};
ghost use Rattle.std.specs.Int.{bit_at};
ghost use Rattle.circuit.specs.Truth.{World};
ghost use Rattle.circuit.specs.Wires.{IsWire, lit_holds};
ghost use Rattle.circuit.specs.declared.lit.Gate.{Gate};
ghost use Rattle.c_values.specs.Operations.{truth_of};
ghost use Rattle.bit_words.specs.Words.{Grows, word_value};

use bit_words::gates::{both, inverse};
use bit_words::{Word, constant};
use circuit::{Circuit, Lit, Memory};

/// The int that a test gives: 1 where the literal holds, and 0 where not (ISO/IEC 9899:2011, 6.5.8p6).
pub(crate) fn test_word(test: Lit) -> Word
    ensures wires { (gates : List Gate) → IsWire gates test → All (IsWire gates) result }
    ensures value { (gates : List Gate) (w : World) → word_value gates result w ≡ truth_of (lit_holds gates test w) }
{
    let mut bits = constant(0);
    bits[0] = test;
    bits
}

/// Whether a word is this pattern.
pub(crate) fn is_pattern(circuit: &mut Circuit, word: &Word, pattern: u64) -> Result<Lit, Memory>
    requires word { All (IsWire circuit.old) word.now }
    requires room { length circuit.old + 128 ≤ 2 ^ 30 }
    ensures grows { Grows circuit.old circuit.new 128 }
    ensures wire { IfOk result (λ c. IsWire circuit.new c) }
    ensures value { IfOk result (λ c. (w : World) → lit_holds circuit.new c w ≡ (word_value circuit.old word.now w == pattern)) }
{
    let mut alike = Lit::YES;
    for i in 0..64usize {
        let expected = has_bit(pattern, i);
        alike = and_bit(circuit, alike, word[i], expected)?;
    }
    Ok(alike)
}

/// Whether a number has a bit at a place.
fn has_bit(pattern: u64, place: usize) -> bool
    requires { place < 64 }
    ensures { (if result then 1 else 0) ≡ bit_at pattern place }
{
    pattern >> place & 1 == 1
}

/// A literal that holds where the first does and the bit is the one expected.
fn and_bit(circuit: &mut Circuit, alike: Lit, bit: Lit, expected: bool) -> Result<Lit, Memory>
    requires left { IsWire circuit.old alike }
    requires right { IsWire circuit.old bit }
    requires room { length circuit.old + 2 ≤ 2 ^ 30 }
    ensures grows { Grows circuit.old circuit.new 2 }
    ensures wire { IfOk result (λ c. IsWire circuit.new c) }
    ensures value { IfOk result (λ c. (w : World) → lit_holds circuit.new c w ≡ (lit_holds circuit.old alike w && (if expected then lit_holds circuit.old bit w else not (lit_holds circuit.old bit w)))) }
{
    let same = matched(circuit, bit, expected)?;
    let all = both(circuit, alike, same)?;
    Ok(all)
}

/// A literal that holds where the bit is the one expected.
#[tactic(auto, using(bit_words::proofs::Steps::grows_none))]
pub(crate) fn matched(circuit: &mut Circuit, bit: Lit, expected: bool) -> Result<Lit, Memory>
    requires wire { IsWire circuit.old bit }
    requires room { length circuit.old + 1 ≤ 2 ^ 30 }
    ensures grows { Grows circuit.old circuit.new 1 }
    ensures wire { IfOk result (λ c. IsWire circuit.new c) }
    ensures value { IfOk result (λ c. (w : World) → lit_holds circuit.new c w ≡ (if expected then lit_holds circuit.old bit w else not (lit_holds circuit.old bit w))) }
{
    if expected {
        return Ok(bit);
    }
    inverse(circuit, bit)
}
