ghost use Rattle.std.specs.Prelude.{◌≡◌, min, ◌-◌, ◌^◌};
ghost use Rattle.patterns.specs.Letters.{form, letter_count, times};

use containers::Boxed;

/// A regular pattern.
#[derive(Drop)]
pub enum Pattern<L> {
    /// Matches no segment.
    Nothing,
    /// Matches where the letter does.
    Letter(L),
    /// A match of the first part and then one of the second, which share a state.
    Dot(Boxed<Pattern<L>>, Boxed<Pattern<L>>),
    /// A match of one part or of the other.
    Either(Boxed<Pattern<L>>, Boxed<Pattern<L>>),
    /// At least `least` matches one after another, and at most `most` where there is one.
    Repeat {
        /// What is repeated.
        body: Boxed<Pattern<L>>,
        /// The least number of matches. None of them match a state alone.
        least: u32,
        /// The greatest number of matches, or no bound.
        most: Option<u32>,
    },
}

/// How many letters a pattern has, repetitions unrolled, or the greatest u64 where there are more.
#[tactic(auto, using(crate::proofs::Capped::counted))]
pub fn letters<L>(pattern: &Pattern<L>) -> u64
    ensures { result ≡ min (letter_count (form pattern.now)) (2 ^ 64 - 1) }
{
    match pattern {
        Pattern::Nothing => 0,
        Pattern::Letter(_) => 1,
        Pattern::Dot(a, b) | Pattern::Either(a, b) => letters(a).saturating_add(letters(b)),
        Pattern::Repeat { body, least, most } => {
            letters(body).saturating_mul(times(*least, *most))
        }
    }
}

/// How often the letters of what is repeated are counted.
fn times(least: u32, most: Option<u32>) -> u64
    ensures { result ≡ times least most }
{
    match most {
        Some(most) => most as u64,
        None => least as u64 + 1,
    }
}
