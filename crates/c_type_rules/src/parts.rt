// Typed expressions, from their parts.
ghost use Rattle.std.specs.Prelude.{◌≡◌, IfOk};
ghost use Rattle.c_type_rules.specs.Expressions.{converted_to, unary_of, binary_of, choice_of, load_of, missing_at, no_variable, called, call_of, fitted};

use crate::kinds::{left_kind, meeting, operand_kind, right_kind};
use crate::scopes::Signature;
use crate::typer::{Given, Sort};
use c_typed_trees::{Callee, TypedCall, TypedExpr, TypedExprForm, TypedPlace};
use c_values::{BinaryOp, Kind, UnaryOp, binary_kind, unary_kind};
use cfa::{Variable, VariablePlace};
use containers::Boxed;
use fq_core::{Name, Span};
use std::alloc::{AllocError, Global};

/// An expression, converted where its kind isn't the wanted one (ISO/IEC 9899:2011, 6.3.1.3).
pub fn converted_to(alloc: Global, kind: Kind, e: TypedExpr) -> Result<TypedExpr, AllocError>
    ensures { IfOk result (λ r. r ≡ converted_to kind e) }
{
    if e.kind == kind {
        return Ok(e);
    }
    let span = e.span;
    let form = TypedExprForm::Convert(Boxed::new(alloc, e)?);
    Ok(TypedExpr { span, kind, form })
}

// An expression, converted to a kind where there is one.
pub(crate) fn fitted(
    alloc: Global,
    kind: Option<Kind>,
    e: TypedExpr,
) -> Result<TypedExpr, AllocError>
    ensures { IfOk result (λ r. r ≡ fitted kind e) }
{
    match kind {
        None => Ok(e),
        Some(kind) => converted_to(alloc, kind, e),
    }
}

pub(crate) fn unary_of(
    alloc: Global,
    span: Span,
    op: UnaryOp,
    a: TypedExpr,
) -> Result<TypedExpr, AllocError>
    ensures { IfOk result (λ r. r ≡ unary_of span op a) }
{
    let kind = operand_kind(op, a.kind);
    let a = Boxed::new(alloc, converted_to(alloc, kind, a)?)?;
    Ok(TypedExpr {
        span,
        kind: unary_kind(op, kind),
        form: TypedExprForm::Unary(op, a),
    })
}

pub(crate) fn binary_of(
    alloc: Global,
    span: Span,
    op: BinaryOp,
    a: TypedExpr,
    b: TypedExpr,
) -> Result<TypedExpr, AllocError>
    ensures { IfOk result (λ r. r ≡ binary_of span op a b) }
{
    let left = left_kind(op, a.kind, b.kind);
    let right = right_kind(op, a.kind, b.kind);
    let a = Boxed::new(alloc, converted_to(alloc, left, a)?)?;
    let b = Boxed::new(alloc, converted_to(alloc, right, b)?)?;
    Ok(TypedExpr {
        span,
        kind: binary_kind(op, left),
        form: TypedExprForm::Binary(op, a, b),
    })
}

pub(crate) fn choice_of(
    alloc: Global,
    span: Span,
    test: TypedExpr,
    yes: TypedExpr,
    no: TypedExpr,
    cell: u32,
) -> Result<TypedExpr, AllocError>
    ensures { IfOk result (λ r. r ≡ choice_of span test yes no cell) }
{
    let kind = meeting(yes.kind, no.kind);
    let test = Boxed::new(alloc, test)?;
    let yes = Boxed::new(alloc, converted_to(alloc, kind, yes)?)?;
    let no = Boxed::new(alloc, converted_to(alloc, kind, no)?)?;
    Ok(TypedExpr {
        span,
        kind,
        form: TypedExprForm::Choice {
            test,
            yes,
            no,
            cell,
        },
    })
}

pub(crate) fn load_of(
    alloc: Global,
    span: Span,
    variable: Variable,
    index: Option<TypedExpr>,
) -> Result<TypedExpr, AllocError>
    ensures { IfOk result (λ e. e ≡ load_of span variable index) }
{
    let kind = variable.kind;
    let place = Boxed::new(alloc, TypedPlace { variable, index })?;
    Ok(TypedExpr {
        span,
        kind,
        form: TypedExprForm::Load(place),
    })
}

/// What stands for a variable that is missing.
pub fn no_variable(alloc: Global) -> Result<Variable, AllocError>
    ensures { IfOk result (λ v. v ≡ no_variable) }
{
    let Ok(name) = Name::new(alloc, b"") else {
        return Err(AllocError);
    };
    Ok(Variable {
        name,
        kind: Kind::INT,
        length: None,
        place: VariablePlace::Local(0),
    })
}

pub(crate) fn missing_at(alloc: Global, span: Span) -> Result<TypedExpr, AllocError>
    ensures { IfOk result (λ e. e ≡ missing_at span) }
{
    load_of(alloc, span, no_variable(alloc)?, None)
}

pub(crate) fn call_of(function: &Signature, given: Given, cell: u32) -> TypedCall
    ensures { result ≡ call_of function.now given cell }
{
    let callee = match function.callee {
        None => Callee::Defined(0),
        Some(callee) => callee,
    };
    TypedCall {
        callee,
        words: given.words,
        arrays: given.arrays,
        cell,
    }
}

pub(crate) fn called(
    alloc: Global,
    span: Span,
    kind: Option<Kind>,
    call: TypedCall,
) -> Result<Sort, AllocError>
    ensures { IfOk result (λ sort. sort ≡ called span kind call) }
{
    match kind {
        None => Ok(Sort::Other),
        Some(kind) => {
            let form = TypedExprForm::Call(Boxed::new(alloc, call)?);
            Ok(Sort::Value(TypedExpr { span, kind, form }))
        }
    }
}
