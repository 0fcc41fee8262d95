// The rest of an expression: its value, once its outermost calls, `&&`, `||` and `?:` have theirs.
ghost use Rattle.std.specs.Prelude.{◌≡◌, ◌<◌, ◌^◌, Ok, Err, drop, slice_index, IfOk, IfErr};
ghost use Rattle.c_values.specs.Kind.{IsKind};
ghost use Rattle.tree_meaning.specs.Activations.{as_kind};
ghost use Rattle.tree_meaning.specs.Running.{meant_in, placed_in, FitExpression, FitPlace};

use crate::numbers::{fitted, operated};
use crate::places::{element_at, start_of};
use crate::scene::Scene;
use crate::store::Store;
use c_typed_trees::{TypedExpr, TypedExprForm, TypedPlace};
use c_values::{Kind, convert, unary_value};
use cfa::Trap;

/// What the first of some values is in a kind, and the others.
fn first_value(vs: &[u64], kind: Kind) -> (u64, &[u64])
    requires { IsKind kind }
    ensures value { result.0 ≡ as_kind kind (slice_index vs.now 0) }
    ensures left { result.1.now ≡ drop 1 vs.now }
{
    match vs.split_first() {
        None => (fitted(0, kind), vs),
        Some((first, left)) => (fitted(*first, kind), left),
    }
}

/// The cell of a place, by the values of its index's outermost parts, which stand first, and the values behind them.
#[cycle(rest)]
#[tactic(auto, using(crate::proofs::Rests::rest_laws))]
pub(crate) fn cell_of<'v>(
    scene: &Scene<'_>,
    store: &Store<'_>,
    place: &TypedPlace,
    vs: &'v [u64],
) -> Result<(usize, &'v [u64]), Trap>
    requires { FitPlace place.now }
    ensures cell { IfOk result (λ r. (placed_in scene.now place.now).cell vs.now store.now.cells ≡ Ok r.0) }
    ensures left { IfOk result (λ r. r.1.now ≡ drop (placed_in scene.now place.now).parts vs.now) }
    ensures err { IfErr result (λ trap. (placed_in scene.now place.now).cell vs.now store.now.cells ≡ Err trap) }
{
    let variable = &place.variable;
    match &place.index {
        None => Ok((start_of(scene.activation(), variable.place), vs)),
        Some(index) => {
            let (v, left) = value_of(scene, store, index, vs)?;
            let cell = element_at(scene.activation(), variable, index.kind, v)?;
            Ok((cell, left))
        }
    }
}

/// An expression's value, by those of its outermost parts, which stand first, and the values behind them; or the trap that
/// ends its evaluation. The left operand goes first.
#[cycle(rest)]
#[tactic(auto, using(crate::proofs::Rests::rest_laws))]
pub(crate) fn value_of<'v>(
    scene: &Scene<'_>,
    store: &Store<'_>,
    tree: &TypedExpr,
    vs: &'v [u64],
) -> Result<(u64, &'v [u64]), Trap>
    requires { FitExpression tree.now }
    ensures value { IfOk result (λ r. (meant_in scene.now tree.now).rest vs.now store.now.cells ≡ Ok r.0) }
    ensures left { IfOk result (λ r. r.1.now ≡ drop (meant_in scene.now tree.now).parts vs.now) }
    ensures err { IfErr result (λ trap. (meant_in scene.now tree.now).rest vs.now store.now.cells ≡ Err trap) }
{
    match &tree.form {
        TypedExprForm::Constant(v) => Ok((*v, vs)),
        TypedExprForm::Load(place) => {
            let (cell, left) = cell_of(scene, store, place, vs)?;
            Ok((fitted(store.at(cell), tree.kind), left))
        }
        TypedExprForm::Convert(inner) => {
            let (v, left) = value_of(scene, store, inner, vs)?;
            Ok((convert(v, inner.kind, tree.kind), left))
        }
        TypedExprForm::Unary(op, inner) => {
            let (v, left) = value_of(scene, store, inner, vs)?;
            Ok((unary_value(*op, v, inner.kind), left))
        }
        TypedExprForm::Binary(op, first, second) => {
            let (v, middle) = value_of(scene, store, first, vs)?;
            let (w, left) = value_of(scene, store, second, middle)?;
            let value = operated(*op, v, first.kind, w, second.kind)?;
            Ok((value, left))
        }
        TypedExprForm::Both { .. } => Ok(first_value(vs, tree.kind)),
        TypedExprForm::Either { .. } => Ok(first_value(vs, tree.kind)),
        TypedExprForm::Choice { .. } => Ok(first_value(vs, tree.kind)),
        TypedExprForm::Call(_) => Ok(first_value(vs, tree.kind)),
    }
}

/// The rest of an expression, by the values of its outermost parts.
pub(crate) fn rest(
    scene: &Scene<'_>,
    store: &Store<'_>,
    tree: &TypedExpr,
    vs: &[u64],
) -> Result<u64, Trap>
    requires { FitExpression tree.now }
    ensures { (meant_in scene.now tree.now).rest vs.now store.now.cells ≡ result }
{
    match value_of(scene, store, tree, vs) {
        Ok((value, _left)) => Ok(value),
        Err(trap) => Err(trap),
    }
}
