// Open variables, and models.
ghost use Rattle.std.specs.Prelude.{◌≡◌, ◌≤◌, ◌<◌, ◌+◌, ◌-◌, ◌*◌, ◌^◌, ℕ, ℤ, pos, true, false, IfNone, IfOk, IfSome, length, slice_index_or};
ghost use Rattle.std.specs.Int.RustNames.{unsigned_abs};
ghost use Rattle.cnf.specs.Clauses.{literal_key};
ghost use Rattle.cnf.specs.literal_marks.Marks.{marked};
ghost use Rattle.cnf.specs.declared.literal_marks.places.Places.TheVariants.{ByKey};
ghost use Rattle.search.specs.Machine.{IsOver, is_open};

use cnf::literal_marks::{Places, is_marked};
use fq_core::Memory;
use std::alloc::Global;

/// The negative literal of the lowest open variable behind the first `known` ones, of so many.
fn lowest_open_behind(values: &[bool], known: u32, variables: u32) -> Option<i32>
    requires { variables ≤ 2 ^ 30 }
    ensures some { IfSome result (λ x. IsOver variables x × (is_open (marked ByKey values.now) x ≡ true)) }
    ensures none { IfNone result ((x : ℤ) → IsOver variables x → 2 * known + 2 ≤ literal_key x → is_open (marked ByKey values.now) x ≡ false) }
{
    for place in known..variables {
        let variable = place as i32 + 1;
        let is_known = is_marked(&Places::ByKey, values, variable)
            || is_marked(&Places::ByKey, values, -variable);
        if !is_known {
            return Some(-variable);
        }
    }
    None
}

/// The negative literal of the lowest open variable of so many. The first `known` ones are looked at last.
pub(crate) fn lowest_open(values: &[bool], known: u32, variables: u32) -> Option<i32>
    requires { variables ≤ 2 ^ 30 }
    ensures some { IfSome result (λ x. IsOver variables x × (is_open (marked ByKey values.now) x ≡ true)) }
    ensures none { IfNone result ((x : ℤ) → IsOver variables x → is_open (marked ByKey values.now) x ≡ false) }
{
    match lowest_open_behind(values, known, variables) {
        Some(literal) => Some(literal),
        None => lowest_open_behind(values, 0, variables),
    }
}

/// The literal of a variable with this sign, if it is an open one of so many.
pub(crate) fn candidate(
    values: &[bool],
    variable: u32,
    is_positive: bool,
    variables: u32,
) -> Option<i32>
    requires { variables ≤ 2 ^ 30 }
    ensures some { IfSome result (λ x. IsOver variables x × (is_open (marked ByKey values.now) x ≡ true)) }
    ensures none { IfNone result ((x : ℤ) → IsOver variables x → unsigned_abs x ≡ variable → is_open (marked ByKey values.now) x ≡ false) }
{
    if variable == 0 || variable > variables {
        return None;
    }
    let positive = variable as i32;
    if is_marked(&Places::ByKey, values, positive) || is_marked(&Places::ByKey, values, -positive) {
        return None;
    }
    if is_positive {
        return Some(positive);
    }
    Some(-positive)
}

/// The value of each of so many variables.
pub(crate) fn model(alloc: Global, values: &[bool], variables: u32) -> Result<Vec<bool>, Memory>
    requires { variables ≤ 2 ^ 30 }
    ensures length { IfOk result (λ model. length model.items ≡ variables) }
    ensures values { IfOk result (λ model. (v : ℕ) → 0 < v → v ≤ variables →
        slice_index_or model.items (v - 1) false ≡ marked ByKey values.now (pos v)) }
{
    let mut model = Vec::new(alloc);
    for place in 0..variables {
        model.push(is_marked(&Places::ByKey, values, place as i32 + 1))?;
    }
    Ok(model)
}
