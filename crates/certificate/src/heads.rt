// The lines of a certificate that are no rows: the title, and the heads of the formula and of the derivation.
ghost use Rattle.std.specs.Prelude.{◌≡◌, ◌∷◌, ◌++◌, ◌≤◌, ◌<◌, ◌^◌, ◌↔◌, List, ℕ, IsTrue, MatchOption};
ghost use Rattle.std.specs.Fmt.{decimal};
ghost use Rattle.cnf.specs.Dimacs.{head_text};
ghost use Rattle.certificate.specs.Certificates.{derivation_head, title};

use crate::numbers::natural_of;
use crate::row::cut;

/// What follows the title and its line feed.
pub(crate) fn after_title(text: &[u8]) -> Option<&[u8]>
    ensures { MatchOption result
        ((more : List ℕ) → text.now ≡ title ++ 10 ∷ more → ⊥)
        (λ rest. text.now ≡ title ++ 10 ∷ rest.now) }
{
    after_prefix(text, b"fshell certificate 1\n")
}

fn after_prefix<'a>(text: &'a [u8], prefix: &[u8]) -> Option<&'a [u8]>
    ensures { MatchOption result
        ((more : List ℕ) → text.now ≡ prefix.now ++ more → ⊥)
        (λ rest. text.now ≡ prefix.now ++ rest.now) }
{
    if text.len() < prefix.len() {
        return None;
    }
    let (front, rest) = text.split_at(prefix.len());
    if is_same(front, prefix) {
        Some(rest)
    } else {
        None
    }
}

fn is_same(text: &[u8], other: &[u8]) -> bool
    ensures { IsTrue result ↔ (text.now ≡ other.now) }
{
    text == other
}

/// The numbers of variables and of clauses, and what follows the line.
pub(crate) fn after_head(text: &[u8]) -> Option<((u32, u32), &[u8])>
    ensures { MatchOption result
        ((v c : ℕ) (more : List ℕ) → v ≤ 2 ^ 30 → c < 2 ^ 32 → text.now ≡ head_text v c ++ 10 ∷ more → ⊥)
        (λ answer. (answer.0.0 ≤ 2 ^ 30) × (answer.0.1 < 2 ^ 32)
        × (text.now ≡ head_text answer.0.0 answer.0.1 ++ 10 ∷ answer.1.now)) }
{
    let Some((line, rest)) = cut(text, b'\n') else {
        return None;
    };
    match to_head(line) {
        Some(head) => Some((head, rest)),
        None => None,
    }
}

fn to_head(line: &[u8]) -> Option<(u32, u32)>
    ensures { MatchOption result
        ((v c : ℕ) → v ≤ 2 ^ 30 → c < 2 ^ 32 → line.now ≡ head_text v c → ⊥)
        (λ head. (head.0 ≤ 2 ^ 30) × (head.1 < 2 ^ 32) × (line.now ≡ head_text head.0 head.1)) }
{
    let Some(counts) = after_prefix(line, b"p cnf ") else {
        return None;
    };
    to_counts(counts)
}

fn to_counts(counts: &[u8]) -> Option<(u32, u32)>
    ensures { MatchOption result
        ((v c : ℕ) → v ≤ 2 ^ 30 → c < 2 ^ 32 → counts.now ≡ decimal v ++ 32 ∷ decimal c → ⊥)
        (λ head. (head.0 ≤ 2 ^ 30) × (head.1 < 2 ^ 32) × (counts.now ≡ decimal head.0 ++ 32 ∷ decimal head.1)) }
{
    let Some((variables, clauses)) = cut(counts, b' ') else {
        return None;
    };
    let Some(variables) = natural_of(variables) else {
        return None;
    };
    let Some(clauses) = natural_of(clauses) else {
        return None;
    };
    if variables > 1 << 30 {
        return None;
    }
    Some((variables, clauses))
}

/// The number of lines of the derivation, and what follows the line.
pub(crate) fn after_derivation_head(text: &[u8]) -> Option<(u32, &[u8])>
    ensures { MatchOption result
        ((count : ℕ) (more : List ℕ) → count < 2 ^ 32 → text.now ≡ derivation_head count ++ 10 ∷ more → ⊥)
        (λ answer. (answer.0 < 2 ^ 32) × (text.now ≡ derivation_head answer.0 ++ 10 ∷ answer.1.now)) }
{
    let Some((line, rest)) = cut(text, b'\n') else {
        return None;
    };
    match to_derivation_head(line) {
        Some(count) => Some((count, rest)),
        None => None,
    }
}

fn to_derivation_head(line: &[u8]) -> Option<u32>
    ensures { MatchOption result
        ((count : ℕ) → count < 2 ^ 32 → line.now ≡ derivation_head count → ⊥)
        (λ count. (count < 2 ^ 32) × (line.now ≡ derivation_head count)) }
{
    match after_prefix(line, b"derivation ") {
        Some(count) => natural_of(count),
        None => None,
    }
}
