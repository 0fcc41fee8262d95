// Letters of words, and the numbers by which they are sorted.
ghost use Rattle.std.specs.Prelude.{◌≡◌, ◌^◌, ◌<◌, ◌≤◌, ℕ, IfOk, Some, slice_get};
ghost use Rattle.goals.specs.declared.goal_letter.GoalLetter.TheVariants as kind;
ghost use Rattle.measurer_index.specs.word_index.Order.{key_of, letter_key};
ghost use Rattle.measurer_index.specs.word_index.Walks.{is_plain, is_unquoted};

use fq_core::Memory;
use goals::GoalLetter;

/// A number of its own for each letter, above 0.
pub(crate) fn letter_key(letter: GoalLetter) -> u64
    ensures key { result ≡ letter_key letter }
    ensures small { result < 2 ^ 35 }
{
    match letter {
        GoalLetter::Edge(edge) => 5 * (edge as u64) + 1,
        GoalLetter::Node(node) => 5 * (node as u64) + 2,
        GoalLetter::Predicate(number) => 5 * (number as u64) + 3,
        GoalLetter::Absent(number) => 5 * (number as u64) + 4,
        GoalLetter::Quoted(number) => 5 * (number as u64) + 5,
    }
}

/// The number of a letter, or 0 where there is none.
pub(crate) fn key_of(letter: Option<GoalLetter>) -> u64
    ensures { result ≡ key_of letter }
{
    match letter {
        None => 0,
        Some(letter) => letter_key(letter),
    }
}

/// This number, or one above that of the letter, if it is an absent predicate and its number isn't below this one.
fn absent_above(letter: GoalLetter, bound: u32) -> Result<u32, Memory>
    ensures from { IfOk result (λ above. bound ≤ above) }
    ensures absent { IfOk result (λ above. (p : ℕ) → letter ≡ kind.Absent p → p < above) }
{
    match letter {
        GoalLetter::Absent(number) => match number.checked_add(1) {
            Some(above) => Ok(bound.max(above)),
            None => Err(Memory),
        },
        _ => Ok(bound),
    }
}

/// The same for all letters of a word.
pub(crate) fn absents_above(word: &[GoalLetter], bound: u32) -> Result<u32, Memory>
    ensures from { IfOk result (λ above. bound ≤ above) }
    ensures absents { IfOk result (λ above. (d p : ℕ) → slice_get word.now d ≡ Some (kind.Absent p) → p < above) }
{
    let mut above = bound;
    for letter in word {
        above = absent_above(*letter, above)?;
    }
    Ok(above)
}

/// Whether no letter of a word is quoted.
fn is_unquoted(word: &[GoalLetter]) -> bool
    ensures { result ≡ is_unquoted word.now }
{
    for letter in word {
        if let GoalLetter::Quoted(_) = *letter {
            return false;
        }
    }
    true
}

/// Whether a word has a letter, and no quoted one.
pub fn is_plain(word: &[GoalLetter]) -> bool
    ensures { result ≡ is_plain word.now }
{
    !word.is_empty() && is_unquoted(word)
}
