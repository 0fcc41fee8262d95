// The typing of one expression in a scope of the graph.
ghost use Rattle.std.specs.Prelude.{◌≡◌, IfOk};
ghost use Rattle.c_types.specs.Scoped.{expression_in, names_in, sort_expr};

use c_parse::ExprTree;
use c_type_rules::{Bound, Cases, Meaning, Names, Scopes, Sort, Typer, expr_of};
use cfa::{Expr, Scope, Variable, Variables};
use containers::{TryClone, Vector};
use fq_core::Memory;
use std::alloc::{AllocError, Global};

// The variables of a scope, in a row.
fn row_of(alloc: Global, variables: &Variables) -> Result<Vector<Variable>, AllocError>
    ensures { IfOk result (λ row. row ≡ variables.now) }
{
    let mut row = Vector::new(alloc);
    for variable in variables.iter() {
        row.push(variable.try_clone(alloc)?)?;
    }
    Ok(row)
}

// The names of a scope's variables, which lie there with the innermost first.
fn names_in(alloc: Global, variables: &[Variable]) -> Result<Scopes, AllocError>
    ensures { IfOk result (λ names. names ≡ names_in variables.now) }
{
    let mut names = Scopes::new(alloc);
    let mut left = variables.len();
    while left > 0 {
        left -= 1;
        let variable = &variables[left];
        names.push(Bound {
            name: variable.name.try_clone(alloc)?,
            level: 0,
            meaning: Meaning::Variable(variable.try_clone(alloc)?),
        })?;
    }
    Ok(names)
}

fn sort_expr(alloc: Global, sort: &Sort) -> Result<Option<Expr>, AllocError>
    ensures { IfOk result (λ e. e ≡ sort_expr sort.now) }
{
    match sort {
        Sort::Value(e) => Ok(Some(expr_of(alloc, e)?)),
        Sort::Array(_) | Sort::Other => Ok(None),
    }
}

/// The expression of the graph that a tree is where the variables of a scope are declared, by the rules that `check`
/// follows. There is none where a name in it is not in the scope or stands for an array, where something else is wrong
/// in it, and where it has a sequence point: a call, `&&`, `||` or `?:` (ISO/IEC 9899:2011, Annex C).
#[tactic(auto, using(crate::proofs::ScopedLaws::scoped_laws))]
pub fn type_expression(
    alloc: Global,
    tree: &ExprTree,
    scope: &Scope,
) -> Result<Option<Expr>, Memory>
    ensures { IfOk result (λ e. e ≡ expression_in scope.now tree.now) }
{
    if tree.has_sequence_point() {
        return Ok(None);
    }
    let variables = row_of(alloc, &scope.variables)?;
    let mut typer = Typer {
        bound: names_in(alloc, variables.as_slice())?,
        labels: Names::new(alloc),
        cases: Cases::new(alloc),
        level: 0,
        local: 0,
        temporary: 0,
        fault: None,
    };
    let sort = typer.sort(alloc, tree)?;
    match typer.fault {
        Some(_) => Ok(None),
        None => Ok(sort_expr(alloc, &sort)?),
    }
}
