// What a call hands over.
ghost use Rattle.std.specs.Prelude.{◌≡◌, ℕ, ◌^◌, ◌<◌, length, map, Ok, Some, IsTrue, IfOk, slice_get};
ghost use Rattle.cfa.specs.declared.expr.ArrayPlace.{ArrayPlace};
ghost use Rattle.cfa.specs.declared.expr.Expr.{Expr};
ghost use Rattle.cfa.specs.Rules.{array_fits, expr_fits};
ghost use Rattle.cfa.specs.Values.{array_start};
ghost use Rattle.c_meaning.specs.Steps.{values_of};
ghost use Rattle.c_meaning.specs.Storage.{HasRoom};

use crate::evaluate::value_of;
use crate::store::Store;
use cfa::{ArrayPlace as Array, Expr as Word, Trap};
use containers::Vector;
use std::alloc::{AllocError, Global};

/// The values of words in order, or the first trap.
pub(crate) fn values_of(
    alloc: Global,
    store: &Store<'_>,
    words: &[Word],
) -> Result<Result<Vector<u64>, Trap>, AllocError>
    requires room { HasRoom store.now }
    requires fits { (k : ℕ) (word : Expr) → slice_get words.now k ≡ Some word → IsTrue (expr_fits store.now.room word) }
    ensures { IfOk result (λ values. values ≡ values_of store.now.cells store.now.frame words.now) }
{
    let mut values = Vector::new(alloc);
    for word in words {
        match value_of(store, word) {
            Ok(value) => values.push(value)?,
            Err(trap) => return Ok(Err(trap)),
        }
    }
    Ok(Ok(values))
}

/// The places of the first cells of arrays in order.
pub(crate) fn starts_of(
    alloc: Global,
    store: &Store<'_>,
    arrays: &[Array],
) -> Result<Vector<u32>, AllocError>
    requires room { HasRoom store.now }
    requires fits { (k : ℕ) (array : ArrayPlace) → slice_get arrays.now k ≡ Some array → (count : ℕ) × IsTrue (array_fits store.now.room array count) }
    ensures { IfOk result (λ starts. starts ≡ map (λ array. array_start store.now.cells store.now.frame array) arrays.now) }
{
    let mut starts = Vector::new(alloc);
    for array in arrays {
        starts.push(store.array_start(*array) as u32)?;
    }
    Ok(starts)
}
