// The input of a model, as numbers without a sign.
ghost use Rattle.std.specs.Prelude.{◌≡◌, All, IfOk, length, map, false};
ghost use Rattle.c_values.specs.Kind.{IsKind};
ghost use Rattle.c_values.specs.declared.kinds.Kind.{Kind as OneKind};
ghost use Rattle.goal_formula.specs.Bits.{assignment};
ghost use Rattle.least_input.specs.Parts.{numbers_in, without_sign};

use c_meaning::Input;
use c_values::Kind;
use fq_core::Memory;
use goal_formula::{GoalFormula, input_of};
use std::alloc::{AllocError, Global};

/// Kinds of as many bits, without a sign.
fn without_signs(alloc: Global, kinds: &[Kind]) -> Result<Vec<Kind>, AllocError>
    ensures { IfOk result (λ made. made.items ≡ map without_sign kinds.now) }
{
    kinds
        .iter()
        .map(|kind| Kind {
            width: kind.width,
            signed: false,
        })
        .collect(alloc)
}

/// The input whose words and answers are the numbers of their bits in a model: each word is below 2 to its kind's width.
pub(crate) fn numbers_of(
    alloc: Global,
    formula: &GoalFormula,
    model: &[bool],
    kinds: &[Kind],
) -> Result<Input, Memory>
    requires kinds { All IsKind kinds.now }
    requires words { map length formula.now.words ≡ map (λ (kind : OneKind). kind.width) kinds.now }
    requires answers { All (λ row. length row ≡ 64) formula.now.answers }
    ensures { IfOk result (λ input. input ≡ numbers_in (assignment model.now) formula.now) }
{
    let kinds = without_signs(alloc, kinds)?;
    input_of(alloc, formula, model, &kinds)
}
