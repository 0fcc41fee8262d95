// How many goals have which answer.
ghost use Rattle.std.specs.Prelude.{◌≡◌, ◌++◌, OnOk};
ghost use Rattle.report.specs.Generated.{counts_text, is_refuted, is_undecided, refuted_count, undecided_count};
ghost use Rattle.report.specs.Texts.{covered_count, is_covered};

use crate::numbers::push_number;
use goals::Answer;
use std::alloc::AllocError;

// Whether an input covers the goal.
fn is_covered(answer: Answer) -> bool
    ensures { result ≡ is_covered answer }
{
    matches!(answer, Answer::Covered { .. })
}

/// How many goals are covered.
pub fn covered_count(answers: &[Answer]) -> usize
    ensures { result ≡ covered_count answers.now }
{
    answers.iter().filter(|answer| is_covered(**answer)).count()
}

fn is_refuted(answer: Answer) -> bool
    ensures { result ≡ is_refuted answer }
{
    matches!(answer, Answer::Refuted)
}

/// How many goals are refuted.
pub fn refuted_count(answers: &[Answer]) -> usize
    ensures { result ≡ refuted_count answers.now }
{
    answers.iter().filter(|answer| is_refuted(**answer)).count()
}

fn is_undecided(answer: Answer) -> bool
    ensures { result ≡ is_undecided answer }
{
    matches!(answer, Answer::Undecided)
}

/// How many goals are undecided.
pub fn undecided_count(answers: &[Answer]) -> usize
    ensures { result ≡ undecided_count answers.now }
{
    answers
        .iter()
        .filter(|answer| is_undecided(**answer))
        .count()
}

/// Appends how many goals are covered, refuted and undecided.
pub fn push_counts(text: &mut Vec<u8>, answers: &[Answer]) -> Result<(), AllocError>
    ensures { OnOk result (text.new.items ≡ text.old.items ++ counts_text answers.now) }
{
    text.extend_from_slice(b"covered ")?;
    push_number(text, covered_count(answers))?;
    text.extend_from_slice(b" refuted ")?;
    push_number(text, refuted_count(answers))?;
    text.extend_from_slice(b" undecided ")?;
    push_number(text, undecided_count(answers))?;
    Ok(())
}
