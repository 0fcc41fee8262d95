// The input of a model.
ghost use Rattle.std.specs.Prelude.{◌≡◌, ◌≤◌, ◌^◌, ◌<◌, All, IfOk, length, map};
ghost use Rattle.c_meaning.specs.Starts.{fitted};
ghost use Rattle.c_values.specs.Kind.{IsKind};
ghost use Rattle.c_values.specs.declared.kinds.Kind.{Kind as OneKind};
ghost use Rattle.goal_formula.specs.Bits.{assignment, bit_in, input_from, number_in, words_in};

use crate::goal::GoalFormula;
use c_meaning::Input;
use c_values::{Kind, convert};
use containers::Vector;
use fq_core::Memory;
use std::alloc::{AllocError, Global};

/// What a model gives a bit. One without a variable is 0.
fn bit_of(model: &[bool], variable: Option<u32>) -> bool
    ensures { result ≡ bit_in (assignment model.now) variable }
{
    match variable {
        None => false,
        Some(number) => {
            let place = (number as usize).saturating_sub(1);
            model.get(place).copied().unwrap_or(false)
        }
    }
}

/// The number of the bits of a row, the lowest first.
fn number_of(model: &[bool], row: &[Option<u32>]) -> u64
    requires { length row.now ≤ 64 }
    ensures value { result ≡ number_in (assignment model.now) row.now }
{
    let mut number = 0;
    for place in (0..row.len()).rev() {
        number *= 2;
        if bit_of(model, row[place]) {
            number += 1;
        }
    }
    number
}

/// The number of the bits of each argument, as a value of its parameter's kind.
fn words_of(
    alloc: Global,
    model: &[bool],
    kinds: &[Kind],
    rows: &[Vector<Option<u32>>],
) -> Result<Vector<u64>, AllocError>
    requires kinds { All IsKind kinds.now }
    requires rows { map length rows.now ≡ map (λ (kind : OneKind). kind.width) kinds.now }
    ensures { IfOk result (λ words. words ≡ words_in (assignment model.now) kinds.now rows.now) }
{
    let mut words = Vector::new(alloc);
    for at in 0..kinds.len() {
        let pattern = number_of(model, &rows[at]);
        words.push(convert(pattern, Kind::UNSIGNED_LONG, kinds[at]))?;
    }
    Ok(words)
}

/// The number of the bits of each answer.
fn answers_of(
    alloc: Global,
    model: &[bool],
    rows: &[Vector<Option<u32>>],
) -> Result<Vector<u64>, AllocError>
    requires { All (λ row. length row ≡ 64) rows.now }
    ensures { IfOk result (λ answers. answers ≡ map (number_in (assignment model.now)) rows.now) }
{
    let mut answers = Vector::new(alloc);
    for row in rows {
        answers.push(number_of(model, row))?;
    }
    Ok(answers)
}

/// The input of a model of a goal's formula, which has one value for each variable, those from 1 on. A bit without a variable
/// is 0. Each argument is a value of its parameter's kind. Want of memory is the only other answer.
pub fn input_of(
    alloc: Global,
    formula: &GoalFormula,
    model: &[bool],
    kinds: &[Kind],
) -> Result<Input, Memory>
    requires kinds { All IsKind kinds.now }
    requires words { map length formula.now.words ≡ map (λ (kind : OneKind). kind.width) kinds.now }
    requires answers { All (λ row. length row ≡ 64) formula.now.answers }
    ensures { IfOk result (λ input. input ≡ input_from (assignment model.now) kinds.now formula.now) }
{
    let words = words_of(alloc, model, kinds, &formula.words)?;
    let answers = answers_of(alloc, model, &formula.answers)?;
    Ok(Input { words, answers })
}
