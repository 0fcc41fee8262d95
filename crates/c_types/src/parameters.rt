// The typing of parameters.
ghost use Rattle.std.specs.Prelude.{◌≡◌, ◌+◌, IfOk, OnOk};
ghost use Rattle.c_type_rules.specs.Rule.{after, made_by};
ghost use Rattle.c_types.specs.Functions.{bind_parameters, cell_behind, lent_behind, named_parameter, parameter_place, parameter_rule, parameters_rule, name_of, name_span};

use crate::declarations::{bind_variable, length_at, unused};
use c_parse::{Ident, Parameter};
use c_type_rules::Typer;
use cfa::{Variable, VariablePlace};
use containers::{TryClone, Vector};
use fq_core::{Name, Span};
use std::alloc::{AllocError, Global};

/// The parameters of a function, and the cell of its frame behind those that are integers.
#[derive(Debug, Drop)]
pub struct Parameters {
    pub cells: u32,
    pub variables: Vector<Variable>,
}

fn parameter_place(cell: u32, lent: u32, length: Option<u32>) -> VariablePlace
    ensures { result ≡ parameter_place cell lent length }
{
    match length {
        None => VariablePlace::Local(cell),
        Some(_) => VariablePlace::Lent(lent),
    }
}

// One more, unless memory is as good as out.
fn next(number: u32) -> Result<u32, AllocError>
    ensures { IfOk result (λ n. n ≡ number + 1) }
{
    if number == u32::MAX {
        return Err(AllocError);
    }
    Ok(number + 1)
}

fn cell_behind(cell: u32, length: Option<u32>) -> Result<u32, AllocError>
    ensures { IfOk result (λ n. n ≡ cell_behind cell length) }
{
    match length {
        None => next(cell),
        Some(_) => Ok(cell),
    }
}

fn lent_behind(lent: u32, length: Option<u32>) -> Result<u32, AllocError>
    ensures { IfOk result (λ n. n ≡ lent_behind lent length) }
{
    match length {
        None => Ok(lent),
        Some(_) => next(lent),
    }
}

// A parameter with its name, if it has one.
#[tactic(auto, using(crate::proofs::ParameterLaws::named_laws))]
fn named(
    typer: &mut Typer,
    alloc: Global,
    defined: bool,
    span: Span,
    name: &Option<Ident>,
    variable: Variable,
) -> Result<Variable, AllocError>
    ensures made { IfOk result (λ v. v ≡ made_by (named_parameter defined span name.now variable) typer.old) }
    ensures state { OnOk result (typer.new ≡ after (named_parameter defined span name.now variable) typer.old) }
{
    match name {
        None => {
            typer.expect(29, span, !defined);
            Ok(variable)
        }
        Some(name) => {
            unused(typer, name);
            bind_variable(typer, alloc, &variable)?;
            Ok(variable)
        }
    }
}

fn name_of(alloc: Global, name: &Option<Ident>) -> Result<Name, AllocError>
    ensures { IfOk result (λ w. w ≡ name_of name.now) }
{
    match name {
        None => match Name::new(alloc, b"") {
            Ok(name) => Ok(name),
            Err(_) => Err(AllocError),
        },
        Some(name) => name.name.try_clone(alloc),
    }
}

fn name_span(span: Span, name: &Option<Ident>) -> Span
    ensures { result ≡ name_span span name.now }
{
    match name {
        None => span,
        Some(name) => name.span,
    }
}

// A parameter at a cell, or at a place among the arrays.
#[tactic(auto, using(crate::proofs::ParameterLaws::parameter_laws))]
fn parameter(
    typer: &mut Typer,
    alloc: Global,
    defined: bool,
    cell: u32,
    lent: u32,
    tree: &Parameter,
) -> Result<Variable, AllocError>
    ensures made { IfOk result (λ v. v ≡ made_by (parameter_rule defined cell lent tree.now) typer.old) }
    ensures state { OnOk result (typer.new ≡ after (parameter_rule defined cell lent tree.now) typer.old) }
{
    let place = name_span(tree.span, &tree.name);
    let length = length_at(typer, alloc, place, &tree.length)?;
    let variable = Variable {
        name: name_of(alloc, &tree.name)?,
        kind: tree.kind,
        length,
        place: parameter_place(cell, lent, length),
    };
    named(typer, alloc, defined, tree.span, &tree.name, variable)
}

/// The parameters of a declaration or a definition.
pub(crate) fn parameter_list(
    typer: &mut Typer,
    alloc: Global,
    defined: bool,
    trees: &[Parameter],
) -> Result<Parameters, AllocError>
    ensures made { IfOk result (λ ps. ps ≡ made_by (parameters_rule defined trees.now) typer.old) }
    ensures state { OnOk result (typer.new ≡ after (parameters_rule defined trees.now) typer.old) }
{
    let mut cell = 1;
    let mut lent = 0;
    let mut variables = Vector::new(alloc);
    for tree in trees {
        let variable = parameter(typer, alloc, defined, cell, lent, tree)?;
        cell = cell_behind(cell, variable.length)?;
        lent = lent_behind(lent, variable.length)?;
        variables.push(variable)?;
    }
    Ok(Parameters {
        cells: cell,
        variables,
    })
}

/// Brings the parameters of a function into scope.
pub(crate) fn bind_parameters(
    typer: &mut Typer,
    alloc: Global,
    variables: &[Variable],
) -> Result<(), AllocError>
    ensures { OnOk result (typer.new ≡ after (bind_parameters variables.now) typer.old) }
{
    for variable in variables {
        bind_variable(typer, alloc, variable)?;
    }
    Ok(())
}
