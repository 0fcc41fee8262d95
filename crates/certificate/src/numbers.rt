// Numbers in decimal, each in the one form that certificates write.
ghost use Rattle.std.specs.Prelude.{◌≡◌, ◌∷◌, ◌<◌, ◌^◌, List, ℕ, ℤ, MatchOption};
ghost use Rattle.std.specs.Fmt.{decimal, signed_decimal};
ghost use Rattle.certificate.specs.Numbers.{IsSmall, begins, natural_value, negative_of, small_of};

use fq_core::{WordText, word_of};

/// The number below 2^32 that a word writes in decimal without leading zeros.
pub fn natural_of(word: &[u8]) -> Option<u32>
    ensures { MatchOption result ((n : ℕ) → n < 2 ^ 32 → word.now ≡ decimal n → ⊥) (λ n. (n < 2 ^ 32) × (word.now ≡ decimal n)) }
{
    canonical(word)
}

fn canonical(word: &[u8]) -> Option<u32>
    ensures { result ≡ natural_value word.now }
{
    if begins_decimal(word) {
        small(word_of(word))
    } else {
        None
    }
}

fn small(word: WordText) -> Option<u32>
    ensures { result ≡ small_of word }
{
    match word {
        WordText::Number(value) => {
            if value < 0x1_0000_0000 {
                Some(value as u32)
            } else {
                None
            }
        }
        WordText::NotNumber | WordText::OutOfRange => None,
    }
}

// Whether a word begins as a number without leading zeros does.
fn begins_decimal(word: &[u8]) -> bool
    ensures { result ≡ begins word.now }
{
    match word {
        [] => false,
        [first] => b'0' <= *first && *first <= b'9',
        [first, ..] => b'1' <= *first && *first <= b'9',
    }
}

/// The integer, less than 2^32 but for its sign, that a word writes in decimal without leading zeros.
pub fn integer_of(word: &[u8]) -> Option<i64>
    ensures { MatchOption result ((z : ℤ) → IsSmall z → word.now ≡ signed_decimal z → ⊥) (λ z. IsSmall z × (word.now ≡ signed_decimal z)) }
{
    match after_minus(word) {
        Some(digits) => negative(natural_of(digits)),
        None => match natural_of(word) {
            Some(number) => Some(number as i64),
            None => None,
        },
    }
}

// What follows the minus sign with which a word begins.
fn after_minus(word: &[u8]) -> Option<&[u8]>
    ensures { MatchOption result ((digits : List ℕ) → word.now ≡ 45 ∷ digits → ⊥) (λ digits. word.now ≡ 45 ∷ digits.now) }
{
    match word {
        [b'-', digits @ ..] => Some(digits),
        _ => None,
    }
}

fn negative(number: Option<u32>) -> Option<i64>
    ensures { result ≡ negative_of number }
{
    match number {
        Some(number) if number > 0 => Some(-(number as i64)),
        _ => None,
    }
}
