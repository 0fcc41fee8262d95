// The line of the least input of a goal.
ghost use Rattle.std.specs.Prelude.{◌≡◌, ◌++◌, IfOk, OnOk};
ghost use Rattle.report.specs.Least.{answers_text, least_text, numbers_text, open_text, without_last_zeros};

use crate::numbers::push_number;
use c_meaning::Input;
use fq_core::Memory;
use std::alloc::{AllocError, Global};

// Up to the last number that isn't 0.
fn without_last_zeros(numbers: &[u64]) -> &[u64]
    ensures { result.now ≡ without_last_zeros numbers.now }
{
    let mut kept = numbers;
    while let [front @ .., 0] = kept {
        kept = front;
    }
    kept
}

// Appends numbers, each after a space.
fn push_numbers(text: &mut Vec<u8>, numbers: &[u64]) -> Result<(), AllocError>
    ensures { OnOk result (text.new.items ≡ text.old.items ++ numbers_text numbers.now) }
{
    for number in numbers {
        text.extend_from_slice(b" ")?;
        push_number(text, *number)?;
    }
    Ok(())
}

// Appends answers, where there are any.
fn push_answers(text: &mut Vec<u8>, answers: &[u64]) -> Result<(), AllocError>
    ensures { OnOk result (text.new.items ≡ text.old.items ++ answers_text answers.now) }
{
    match answers {
        [] => Ok(()),
        [_first, ..] => {
            text.extend_from_slice(b" answers")?;
            push_numbers(text, answers)?;
            Ok(())
        }
    }
}

/// The line of a goal of this number whose least input is this one: its arguments, and its answers up to the last that isn't
/// 0, where there are any, all without a sign.
pub fn least_text(alloc: Global, number: u32, input: &Input) -> Result<Vec<u8>, Memory>
    ensures { IfOk result (λ text. text.items ≡ least_text number input.now) }
{
    let mut text = Vec::from_slice(alloc, b"goal ")?;
    push_number(&mut text, number)?;
    text.extend_from_slice(b" least args")?;
    push_numbers(&mut text, &input.words)?;
    push_answers(&mut text, without_last_zeros(&input.answers))?;
    text.extend_from_slice(b"\n")?;
    Ok(text)
}

/// The line of a goal of this number whose least input stays open.
pub fn open_text(alloc: Global, number: u32) -> Result<Vec<u8>, Memory>
    ensures { IfOk result (λ text. text.items ≡ open_text number) }
{
    let mut text = Vec::from_slice(alloc, b"goal ")?;
    push_number(&mut text, number)?;
    text.extend_from_slice(b" open\n")?;
    Ok(text)
}
