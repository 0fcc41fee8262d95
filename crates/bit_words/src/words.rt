ghost use Rattle.std.specs.Prelude.{◌≡◌, ℕ, ◌-◌, ◌<◌, All, List, false, if◌then◌else◌, length, pos, take};
ghost use Rattle.std.specs.Int.{bit_at};
ghost use Rattle.circuit.specs.Truth.{World};
ghost use Rattle.circuit.specs.Wires.{IsWire, lit_holds};
ghost use Rattle.circuit.specs.declared.lit.Gate.{Gate};
ghost use Rattle.c_values.specs.Kind.{IsKind, converted, wrapped};
ghost use Rattle.bit_words.specs.Words.{IsWord, bit_of, low_value, word_value};

use c_values::Kind;
use circuit::Lit;

/// A pattern of 64 bits over the wires of a circuit: its literals, that of the lowest bit first.
pub type Word = [Lit; 64];

/// The word of which no bit holds.
pub(crate) fn blank() -> Word
    ensures wires { (gates : List Gate) → All (IsWire gates) result }
    ensures bits { (gates : List Gate) (w : World) (k : ℕ) → bit_of gates result w k ≡ false }
{
    [Lit::NO; 64]
}

/// The word of a pattern of 64 bits, which it is in every world of every circuit.
pub fn constant(value: u64) -> Word
    ensures wires { (gates : List Gate) → All (IsWire gates) result }
    ensures value { (gates : List Gate) (w : World) → word_value gates result w ≡ value }
{
    let mut bits = blank();
    for i in 0..64usize {
        bits[i] = constant_bit(value, i);
    }
    bits
}

/// The literal of one bit of a number.
fn constant_bit(value: u64, place: usize) -> Lit
    requires { place < 64 }
    ensures wire { result.wire ≡ 0 }
    ensures value { (gates : List Gate) (w : World) → (if lit_holds gates result w then 1 else 0) ≡ bit_at value place }
{
    if value >> place & 1 == 1 {
        Lit::YES
    } else {
        Lit::NO
    }
}

/// A value of one kind in another (6.3.1.3). It has the literals of the other's width, and is extended.
pub fn convert(word: &Word, from: Kind, to: Kind) -> Word
    requires { IsKind to }
    ensures word { (gates : List Gate) → IsWord gates from word.now → IsWord gates to result }
    ensures value { (gates : List Gate) → IsWord gates from word.now → (w : World) → word_value gates result w ≡ converted from to (word_value gates word.now w) }
{
    let _ = from;
    extended(word, to)
}

/// What a kind has of a word of any pattern: its lowest bits, the same literals, with the highest of them above or, in a
/// kind without sign, no.
pub fn extended(word: &Word, kind: Kind) -> Word
    requires { IsKind kind }
    ensures own { take kind.width result ≡ take kind.width word.now }
    ensures word { (gates : List Gate) → All (IsWire gates) word.now → IsWord gates kind result }
    ensures value { (gates : List Gate) (w : World) → word_value gates result w ≡ wrapped kind (pos (word_value gates word.now w)) }
{
    let width = kind.width as usize;
    let top = extension(word, kind);
    let mut bits = *word;
    for i in width..64 {
        bits[i] = top;
    }
    bits
}

/// The literal above the width: that of the highest bit, or no in a kind without sign.
pub(crate) fn extension(word: &Word, kind: Kind) -> Lit
    requires { IsKind kind }
    ensures wire { (gates : List Gate) → All (IsWire gates) word.now → IsWire gates result }
    ensures value { (gates : List Gate) (w : World) → lit_holds gates result w ≡ (if kind.signed then bit_of gates word.now w (kind.width - 1) else false) }
{
    if kind.signed {
        word[kind.width as usize - 1]
    } else {
        Lit::NO
    }
}
