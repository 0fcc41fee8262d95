// The expressions of the graph that typed expressions are.
ghost use Rattle.std.specs.Prelude.{◌≡◌, IfOk, option_map};
ghost use Rattle.c_type_rules.specs.Values.{array_of, cell_of, expr_of, length_or_none, place_of_typed, place_with};

use c_typed_trees::{TypedExpr, TypedExprForm, TypedPlace};
use cfa::{ArrayPlace, CellPlace, Expr, Variable, VariablePlace};
use containers::Boxed;
use std::alloc::{AllocError, Global};

fn array_of(place: VariablePlace) -> ArrayPlace
    ensures { result ≡ array_of place }
{
    match place {
        VariablePlace::Global(first) => ArrayPlace::Global(first),
        VariablePlace::Local(first) => ArrayPlace::Local(first),
        VariablePlace::Lent(parameter) => ArrayPlace::Lent(parameter),
    }
}

fn cell_of(place: VariablePlace) -> CellPlace
    ensures { result ≡ cell_of place }
{
    match place {
        VariablePlace::Global(cell) => CellPlace::Global(cell),
        VariablePlace::Local(cell) => CellPlace::Local(cell),
        VariablePlace::Lent(_) => CellPlace::Local(0),
    }
}

fn length_or_none(length: Option<u32>) -> u32
    ensures { result ≡ length_or_none length }
{
    match length {
        None => 0,
        Some(n) => n,
    }
}

fn element(alloc: Global, variable: &Variable, index: Expr) -> Result<CellPlace, AllocError>
    ensures { IfOk result (λ cell. cell ≡ place_with variable.now (Some index)) }
{
    Ok(CellPlace::Element {
        array: array_of(variable.place),
        index: Boxed::new(alloc, index)?,
        length: length_or_none(variable.length),
    })
}

/// The cell that a place is.
#[cycle(values)]
#[tactic(auto, using(crate::proofs::ValueLaws::place_laws))]
pub fn place_of_typed(alloc: Global, place: &TypedPlace) -> Result<CellPlace, AllocError>
    ensures { IfOk result (λ cell. cell ≡ place_of_typed place.now) }
{
    match &place.index {
        None => Ok(cell_of(place.variable.place)),
        Some(index) => {
            let index = expr_of(alloc, index)?;
            element(alloc, &place.variable, index)
        }
    }
}

/// The expression that a typed one is, once each call, `&&`, `||` and `?:` in it has been put into its cell.
#[cycle(values)]
#[tactic(auto, using(crate::proofs::ValueLaws::value_laws))]
pub fn expr_of(alloc: Global, e: &TypedExpr) -> Result<Expr, AllocError>
    ensures { IfOk result (λ expr. expr ≡ expr_of e.now) }
{
    let kind = e.kind;
    match &e.form {
        TypedExprForm::Constant(value) => Ok(Expr::Constant(*value, kind)),
        TypedExprForm::Load(place) => Ok(Expr::Load(place_of_typed(alloc, place)?, kind)),
        TypedExprForm::Convert(a) => {
            let operand = Boxed::new(alloc, expr_of(alloc, a)?)?;
            Ok(Expr::Convert(operand, kind))
        }
        TypedExprForm::Unary(op, a) => {
            let operand = Boxed::new(alloc, expr_of(alloc, a)?)?;
            Ok(Expr::Unary(*op, operand, a.kind))
        }
        TypedExprForm::Binary(op, a, b) => {
            let left = Boxed::new(alloc, expr_of(alloc, a)?)?;
            let right = Boxed::new(alloc, expr_of(alloc, b)?)?;
            Ok(Expr::Binary(*op, left, right, a.kind))
        }
        TypedExprForm::Both { cell, .. }
        | TypedExprForm::Either { cell, .. }
        | TypedExprForm::Choice { cell, .. } => Ok(Expr::Load(CellPlace::Local(*cell), kind)),
        TypedExprForm::Call(call) => Ok(Expr::Load(CellPlace::Local(call.cell), kind)),
    }
}
