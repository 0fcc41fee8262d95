// The typing of declarations in a block.
ghost use Rattle.std.specs.Prelude.{◌≡◌, ◌++◌, IfOk, OnOk};
ghost use Rattle.c_type_rules.specs.Rule.{after, made_by};
ghost use Rattle.c_type_rules.specs.Scopes.{newest};
ghost use Rattle.c_types.specs.Declarations.{begun, bind_variable, cells_of, is_list_for, length_at, length_within, local_rule, locals_rule, same_level, unused, value_for, values_for};

use c_parse::{Declarator, ExprTree, Ident, Initial};
use c_type_rules::{Bound, Meaning, Typer, converted_to};
use c_typed_trees::{TypedExpr, TypedForm, TypedStatement};
use c_values::Kind;
use cfa::{Variable, VariablePlace};
use containers::{TryClone, Vector};
use fq_core::{Name, Span};
use std::alloc::{AllocError, Global};

pub(crate) fn cells_of(length: Option<u32>) -> u32
    ensures { result ≡ cells_of length }
{
    match length {
        None => 1,
        Some(n) => n,
    }
}

/// Whether so many values may stand for an array of a length.
pub(crate) fn is_list_for(length: u32, count: usize) -> bool
    ensures { result ≡ is_list_for length count }
{
    count <= length as usize || length == 0
}

// Whether a name is bound in the innermost scope.
fn is_here(typer: &Typer, name: &Name) -> bool
    ensures { result ≡ same_level typer.now.level (newest name.now typer.now.bound) }
{
    match typer.bound.find(name) {
        None => false,
        Some(bound) => bound.level == typer.level,
    }
}

/// A name that is declared must not be bound in the same scope.
#[tactic(auto, using(crate::proofs::DeclarationLaws::unused_laws))]
pub(crate) fn unused(typer: &mut Typer, name: &Ident)
    ensures { typer.new ≡ after (unused name.now) typer.old }
{
    let here = is_here(typer, &name.name);
    typer.expect(31, name.span, !here);
}

/// Brings a variable into scope.
#[tactic(auto, using(crate::proofs::DeclarationLaws::variable_laws))]
pub(crate) fn bind_variable(
    typer: &mut Typer,
    alloc: Global,
    variable: &Variable,
) -> Result<(), AllocError>
    ensures { OnOk result (typer.new ≡ after (bind_variable variable.now) typer.old) }
{
    let level = typer.level;
    typer.bind(Bound {
        name: variable.name.try_clone(alloc)?,
        level,
        meaning: Meaning::Variable(variable.try_clone(alloc)?),
    })
}

// The length of an array, which is from 1 to 1024.
#[tactic(auto, using(crate::proofs::DeclarationLaws::within_laws))]
fn length_within(typer: &mut Typer, span: Span, length: Option<u64>) -> Option<u32>
    ensures made { result ≡ made_by (length_within span length) typer.old }
    ensures state { typer.new ≡ after (length_within span length) typer.old }
{
    match length {
        None => Some(0),
        Some(n) => {
            if 1 <= n && n <= 1024 {
                return Some(n as u32);
            }
            typer.fault(34, span);
            Some(0)
        }
    }
}

/// The length of an array with a name at a place, and none of an integer.
#[tactic(auto, using(crate::proofs::DeclarationLaws::length_laws))]
pub(crate) fn length_at(
    typer: &mut Typer,
    alloc: Global,
    span: Span,
    length: &Option<ExprTree>,
) -> Result<Option<u32>, AllocError>
    ensures made { IfOk result (λ n. n ≡ made_by (length_at span length.now) typer.old) }
    ensures state { OnOk result (typer.new ≡ after (length_at span length.now) typer.old) }
{
    match length {
        None => Ok(None),
        Some(tree) => {
            let number = typer.constant(alloc, None, tree)?;
            Ok(length_within(typer, span, number))
        }
    }
}

/// A value, converted to a kind.
#[tactic(auto, using(crate::proofs::DeclarationLaws::value_laws))]
fn value_for(
    typer: &mut Typer,
    alloc: Global,
    kind: Kind,
    tree: &ExprTree,
) -> Result<TypedExpr, AllocError>
    ensures made { IfOk result (λ e. e ≡ made_by (value_for kind tree.now) typer.old) }
    ensures state { OnOk result (typer.new ≡ after (value_for kind tree.now) typer.old) }
{
    let value = typer.integer(alloc, tree)?;
    converted_to(alloc, kind, value)
}

// The values of a list, each converted to a kind.
fn values_for(
    typer: &mut Typer,
    alloc: Global,
    kind: Kind,
    trees: &[ExprTree],
) -> Result<Vector<TypedExpr>, AllocError>
    ensures made { IfOk result (λ list. list ≡ made_by (values_for kind trees.now) typer.old) }
    ensures state { OnOk result (typer.new ≡ after (values_for kind trees.now) typer.old) }
{
    let mut list = Vector::new(alloc);
    for tree in trees {
        list.push(value_for(typer, alloc, kind, tree)?)?;
    }
    Ok(list)
}

// What a variable begins as.
#[tactic(auto, using(crate::proofs::DeclarationLaws::begun_laws))]
fn begun(
    typer: &mut Typer,
    alloc: Global,
    span: Span,
    name: &Ident,
    variable: Variable,
    first: &Option<Initial>,
) -> Result<TypedStatement, AllocError>
    ensures made { IfOk result (λ s. s ≡ made_by (begun span name.now variable variable.length first.now) typer.old) }
    ensures state { OnOk result (typer.new ≡ after (begun span name.now variable variable.length first.now) typer.old) }
{
    let kind = variable.kind;
    match (variable.length, first) {
        (None, None) => Ok(TypedStatement {
            span,
            form: TypedForm::Local {
                variable,
                first: None,
            },
        }),
        (None, Some(Initial::One(tree))) => {
            let first = Some(value_for(typer, alloc, kind, tree)?);
            Ok(TypedStatement {
                span,
                form: TypedForm::Local { variable, first },
            })
        }
        (None, Some(Initial::List(trees))) => {
            typer.fault(33, name.span);
            let _list = values_for(typer, alloc, kind, trees.as_slice())?;
            Ok(TypedStatement {
                span,
                form: TypedForm::Empty,
            })
        }
        (Some(_), None) => Ok(TypedStatement {
            span,
            form: TypedForm::LocalArray {
                variable,
                list: Vector::new(alloc),
            },
        }),
        (Some(_), Some(Initial::One(tree))) => {
            typer.fault(33, name.span);
            let _value = value_for(typer, alloc, kind, tree)?;
            Ok(TypedStatement {
                span,
                form: TypedForm::Empty,
            })
        }
        (Some(length), Some(Initial::List(trees))) => {
            typer.expect(34, name.span, is_list_for(length, trees.len()));
            let list = values_for(typer, alloc, kind, trees.as_slice())?;
            Ok(TypedStatement {
                span,
                form: TypedForm::LocalArray { variable, list },
            })
        }
    }
}

// The variable of a declarator.
#[tactic(auto, using(crate::proofs::DeclarationLaws::local_laws))]
fn local(
    typer: &mut Typer,
    alloc: Global,
    span: Span,
    kind: Kind,
    declarator: &Declarator,
) -> Result<TypedStatement, AllocError>
    ensures made { IfOk result (λ s. s ≡ made_by (local_rule span kind declarator.now) typer.old) }
    ensures state { OnOk result (typer.new ≡ after (local_rule span kind declarator.now) typer.old) }
{
    let name = &declarator.name;
    unused(typer, name);
    let length = length_at(typer, alloc, name.span, &declarator.length)?;
    let cell = typer.new_local(cells_of(length))?;
    let variable = Variable {
        name: name.name.try_clone(alloc)?,
        kind,
        length,
        place: VariablePlace::Local(cell),
    };
    bind_variable(typer, alloc, &variable)?;
    begun(typer, alloc, span, name, variable, &declarator.first)
}

/// The variables of a declaration, each by a statement.
pub(crate) fn locals(
    typer: &mut Typer,
    alloc: Global,
    span: Span,
    kind: Kind,
    list: &[Declarator],
    out: &mut Vector<TypedStatement>,
) -> Result<(), AllocError>
    ensures made { OnOk result (out.new ≡ out.old ++ made_by (locals_rule span kind list.now) typer.old) }
    ensures state { OnOk result (typer.new ≡ after (locals_rule span kind list.now) typer.old) }
{
    for declarator in list {
        out.push(local(typer, alloc, span, kind, declarator)?)?;
    }
    Ok(())
}
