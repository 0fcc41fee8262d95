// The input of a model.
ghost use Rattle.std.specs.Prelude.{◌≡◌, ◌≤◌, ◌^◌, All, IfOk, length, map};
ghost use Rattle.c_values.specs.Kind.{IsKind};
ghost use Rattle.c_values.specs.declared.kinds.Kind.{Kind as OneKind};
ghost use Rattle.goal_formula.specs.Bits.{assignment, input_from};
ghost use Rattle.bounds_check.specs.Parts.{IsCut};

use c_meaning::Input;
use c_values::Kind;
use containers::Vector;
use fq_core::Memory;
use goal_formula::{GoalFormula, input_of};
use std::alloc::Global;

/// Lets the zeros at the end of a list go.
fn without_last_zeros(numbers: Vector<u64>) -> Vector<u64>
    ensures { IsCut numbers result }
{
    let mut kept = numbers.into_vec();
    while let Some(0) = kept.last() {
        let _ = kept.pop();
    }
    Vector::from_vec(kept)
}

/// The input of a model, without the zeros at the end of its answers, which are read as zeros past the list's end too.
pub(crate) fn left_input(
    alloc: Global,
    formula: &GoalFormula,
    model: &[bool],
    kinds: &[Kind],
) -> Result<Input, Memory>
    requires kinds { All IsKind kinds.now }
    requires words { map length formula.now.words ≡ map (λ (kind : OneKind). kind.width) kinds.now }
    requires answers { All (λ row. length row ≡ 64) formula.now.answers }
    ensures words { IfOk result (λ input.
        input.words ≡ (input_from (assignment model.now) kinds.now formula.now).words) }
    ensures answers { IfOk result (λ input.
        IsCut (input_from (assignment model.now) kinds.now formula.now).answers input.answers) }
{
    let input = input_of(alloc, formula, model, kinds)?;
    Ok(Input {
        words: input.words,
        answers: without_last_zeros(input.answers),
    })
}
