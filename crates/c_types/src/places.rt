// The typing of assignments.
ghost use Rattle.std.specs.Prelude.{◌≡◌, IfOk, OnOk};
ghost use Rattle.c_type_rules.specs.Rule.{after, made_by};
ghost use Rattle.c_types.specs.Statements.{assigned, in_cases, in_loop, one_at, place_rule, step_operator, variable_at};

use crate::around::Around;
use c_parse::{ExprTree, Ident};
use c_type_rules::{Meaning, Typer, converted_to, left_kind, no_variable, right_kind};
use c_typed_trees::{TypedExpr, TypedExprForm, TypedForm, TypedPlace};
use c_values::{BinaryOp, Kind};
use cfa::Variable;
use containers::TryClone;
use fq_core::{Name, Span};
use std::alloc::{AllocError, Global};

/// What surrounds the body of a loop.
pub(crate) fn in_loop(around: Around) -> Around
    ensures { result ≡ in_loop around }
{
    Around {
        result: around.result,
        breaks: true,
        continues: true,
    }
}

/// What surrounds the groups of a `switch`.
pub(crate) fn in_cases(around: Around) -> Around
    ensures { result ≡ in_cases around }
{
    Around {
        result: around.result,
        breaks: true,
        continues: around.continues,
    }
}

// An integer variable, by its name.
#[tactic(auto, using(crate::proofs::PartLaws::variable_laws))]
fn variable_at(
    typer: &mut Typer,
    alloc: Global,
    span: Span,
    name: &Name,
) -> Result<Variable, AllocError>
    ensures made { IfOk result (λ v. v ≡ made_by (variable_at span name.now) typer.old) }
    ensures state { OnOk result (typer.new ≡ after (variable_at span name.now) typer.old) }
{
    let code = match typer.bound.find(name) {
        None => 30,
        Some(bound) => match &bound.meaning {
            Meaning::Function(_) | Meaning::Constant(_) => 33,
            Meaning::Variable(variable) => match variable.length {
                Some(_) => 33,
                None => return variable.try_clone(alloc),
            },
        },
    };
    typer.fault(code, span);
    no_variable(alloc)
}

/// What is assigned to.
#[tactic(auto, using(crate::proofs::PartLaws::place_laws))]
pub(crate) fn place(
    typer: &mut Typer,
    alloc: Global,
    name: &Ident,
    index: &Option<ExprTree>,
) -> Result<TypedPlace, AllocError>
    ensures made { IfOk result (λ p. p ≡ made_by (place_rule name.now index.now) typer.old) }
    ensures state { OnOk result (typer.new ≡ after (place_rule name.now index.now) typer.old) }
{
    match index {
        None => {
            let variable = variable_at(typer, alloc, name.span, &name.name)?;
            Ok(TypedPlace {
                variable,
                index: None,
            })
        }
        Some(index) => {
            let variable = typer.array_at(alloc, name.span, &name.name)?;
            let index = Some(typer.integer(alloc, index)?);
            Ok(TypedPlace { variable, index })
        }
    }
}

/// An assignment, with an operator or without.
pub(crate) fn assigned(
    alloc: Global,
    place: TypedPlace,
    operator: Option<BinaryOp>,
    value: TypedExpr,
) -> Result<TypedForm, AllocError>
    ensures { IfOk result (λ form. form ≡ assigned place operator value) }
{
    let own = place.variable.kind;
    match operator {
        None => {
            let value = converted_to(alloc, own, value)?;
            Ok(TypedForm::Assign {
                place,
                operator: None,
                value,
            })
        }
        Some(operator) => {
            let left = left_kind(operator, own, value.kind);
            let right = right_kind(operator, own, value.kind);
            let value = converted_to(alloc, right, value)?;
            Ok(TypedForm::Assign {
                place,
                operator: Some((operator, left)),
                value,
            })
        }
    }
}

/// The operator of `++` and of `--`.
pub(crate) fn step_operator(up: bool) -> BinaryOp
    ensures { result ≡ step_operator up }
{
    if up { BinaryOp::Add } else { BinaryOp::Sub }
}

/// The number 1.
pub(crate) fn one_at(span: Span) -> TypedExpr
    ensures { result ≡ one_at span }
{
    TypedExpr {
        span,
        kind: Kind::INT,
        form: TypedExprForm::Constant(1),
    }
}
