// The part of a scope that an expression depends on.
ghost use Rattle.std.specs.Prelude.{◌≡◌, ◌++◌, true, IfOk, OnOk};
ghost use Rattle.std.specs.Option.{option_copied};
ghost use Rattle.predicates.specs.Narrowing.{names_of, seen, sight};

use c_parse::{ExprForm, ExprTree};
use cfa::{Scope, Variable, Variables};
use containers::{TryClone, Vector};
use fq_core::Name;
use std::alloc::{AllocError, Global};

// Adds the names of an expression.
#[tactic(auto, unfolding(crate::specs::Narrowing::names_of))]
fn add_names(alloc: Global, tree: &ExprTree, names: &mut Vector<Name>) -> Result<(), AllocError>
    ensures { OnOk result (names.new ≡ names.old ++ names_of tree.now) }
{
    match &tree.form {
        ExprForm::Name(name) => names.push(name.try_clone(alloc)?),
        ExprForm::Element(name, index) => {
            names.push(name.try_clone(alloc)?)?;
            add_names(alloc, index, names)
        }
        ExprForm::Cast(_, inner) | ExprForm::Plus(inner) | ExprForm::Unary(_, inner) => {
            add_names(alloc, inner, names)
        }
        ExprForm::Binary(_, left, right) => {
            add_names(alloc, left, names)?;
            add_names(alloc, right, names)
        }
        ExprForm::Number(_, _)
        | ExprForm::Call(_, _)
        | ExprForm::Both(_, _)
        | ExprForm::Either(_, _)
        | ExprForm::Choice(_, _, _) => Ok(()),
    }
}

/// The names of an expression, in order.
pub fn names_of(alloc: Global, tree: &ExprTree) -> Result<Vector<Name>, AllocError>
    ensures { IfOk result (λ names. names ≡ names_of tree.now) }
{
    let mut names = Vector::new(alloc);
    add_names(alloc, tree, &mut names)?;
    Ok(names)
}

fn copied(alloc: Global, found: Option<&Variable>) -> Result<Option<Variable>, AllocError>
    ensures { IfOk result (λ copy. copy ≡ option_copied found.entry) }
{
    match found {
        None => Ok(None),
        Some(variable) => Ok(Some(variable.try_clone(alloc)?)),
    }
}

/// By name, what it stands for in a scope.
pub fn sight(
    alloc: Global,
    names: &[Name],
    scope: &Scope,
) -> Result<Vector<Option<Variable>>, AllocError>
    ensures { IfOk result (λ row. row ≡ sight names.now scope.now) }
{
    let mut row = Vector::new(alloc);
    for name in names {
        let variable = copied(alloc, scope.variables.find(name))?;
        row.push(variable)?;
    }
    Ok(row)
}

fn is_same(a: &Variable, b: &Variable) -> bool
    ensures { result ≡ true → a.now ≡ b.now }
{
    a.name == b.name && a.kind == b.kind && a.length == b.length && a.place == b.place
}

fn is_found(found: Option<&Variable>, expected: &Option<Variable>) -> bool
    ensures { result ≡ true → option_copied found.entry ≡ expected.now }
{
    match (found, expected) {
        (None, None) => true,
        (Some(found), Some(expected)) => is_same(found, expected),
        (None, Some(_)) => false,
        (Some(_), None) => false,
    }
}

/// Whether names stand for these variables in a scope. It goes no further than to the first that doesn't.
pub fn is_sight(names: &[Name], scope: &Scope, row: &[Option<Variable>]) -> bool
    ensures { result ≡ true → sight names.now scope.now ≡ row.now }
{
    if names.len() != row.len() {
        return false;
    }
    for (k, name) in names.iter().enumerate() {
        if !is_found(scope.variables.find(name), &row[k]) {
            return false;
        }
    }
    true
}

/// The scope of the variables that names stand for.
pub fn seen(alloc: Global, row: &[Option<Variable>]) -> Result<Scope, AllocError>
    ensures { IfOk result (λ scope. scope ≡ seen row.now) }
{
    let mut variables = Variables::new();
    let mut left = row.len();
    while left > 0 {
        left -= 1;
        if let Some(variable) = &row[left] {
            variables = Variables::with(alloc, variable.try_clone(alloc)?, variables)?;
        }
    }
    Ok(Scope { variables })
}
