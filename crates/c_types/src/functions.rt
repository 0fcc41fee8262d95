// The typing of functions.
ghost use Rattle.std.specs.Prelude.{◌≡◌, ◌++◌, map, IfOk, OnOk};
ghost use Rattle.std.specs.Option.{is_some};
ghost use Rattle.cfa.specs.Each.{matched};
ghost use Rattle.c_type_rules.specs.Rule.{after, made_by};
ghost use Rattle.c_type_rules.specs.Scopes.{newest};
ghost use Rattle.c_types.specs.Functions.{body_rule, declare, defined_rule, frame_state, framed, function_rule, in_function, left_frame, bared, limited, may_declare, same_optional, same_parameter, same_result, same_signature, signature_of, taken, was_defined};

use crate::around::Around;
use crate::parameters::{Parameters, bind_parameters, parameter_list};
use crate::statements::in_turn;
use c_parse::{Body, Ident, Parameter};
use c_type_rules::{Bound, Cases, Meaning, Names, ParameterKind, Signature, Typer};
use c_typed_trees::{Callee, TypedFunction, TypedStatement};
use c_values::Kind;
use cfa::Variable;
use containers::{TryClone, Vector};
use fq_core::{Name, Span};
use std::alloc::{AllocError, Global};
use std::mem::replace;

fn taken(alloc: Global, variables: &[Variable]) -> Result<Vector<ParameterKind>, AllocError>
    ensures { IfOk result (λ list. list ≡ map taken variables.now) }
{
    let mut list = Vector::new(alloc);
    for variable in variables {
        list.push(ParameterKind {
            kind: variable.kind,
            length: variable.length,
        })?;
    }
    Ok(list)
}

fn signature_of(
    alloc: Global,
    callee: Option<Callee>,
    defined: bool,
    result_kind: Option<Kind>,
    parameters: &Parameters,
) -> Result<Signature, AllocError>
    ensures { IfOk result (λ f. f ≡ signature_of callee defined result_kind parameters.now) }
{
    Ok(Signature {
        callee,
        defined,
        result: result_kind,
        parameters: taken(alloc, parameters.variables.as_slice())?,
    })
}

fn same_optional(a: Option<u32>, b: Option<u32>) -> bool
    ensures { result ≡ same_optional a b }
{
    match (a, b) {
        (None, None) => true,
        (Some(a), Some(b)) => a == b,
        (None, Some(_)) | (Some(_), None) => false,
    }
}

fn same_result(a: Option<Kind>, b: Option<Kind>) -> bool
    ensures { result ≡ same_result a b }
{
    match (a, b) {
        (None, None) => true,
        (Some(a), Some(b)) => a == b,
        (None, Some(_)) | (Some(_), None) => false,
    }
}

fn same_parameter(a: ParameterKind, b: ParameterKind) -> bool
    ensures { result ≡ same_parameter a b }
{
    a.kind == b.kind && same_optional(a.length, b.length)
}

fn same_parameters(a: &[ParameterKind], b: &[ParameterKind]) -> bool
    ensures { result ≡ matched same_parameter a.now b.now }
{
    match (a, b) {
        ([], []) => true,
        ([first, rest @ ..], [other, others @ ..]) => {
            same_parameter(*first, *other) && same_parameters(rest, others)
        }
        _ => false,
    }
}

fn same_signature(f: &Signature, g: &Signature) -> bool
    ensures { result ≡ same_signature f.now g.now }
{
    same_result(f.result, g.result)
        && same_parameters(f.parameters.as_slice(), g.parameters.as_slice())
}

// Whether a function may be declared as what it is.
fn may_declare(typer: &Typer, name: &Name, function: &Signature) -> bool
    ensures { result ≡ may_declare function.now (newest name.now typer.now.bound) }
{
    match typer.bound.find(name) {
        None => true,
        Some(bound) => match &bound.meaning {
            Meaning::Variable(_) | Meaning::Constant(_) => false,
            Meaning::Function(other) => {
                same_signature(function, other) && !(function.defined && other.defined)
            }
        },
    }
}

// Whether a function of this name is defined already.
fn was_defined(typer: &Typer, name: &Name) -> bool
    ensures { result ≡ was_defined (newest name.now typer.now.bound) }
{
    match typer.bound.find(name) {
        None => false,
        Some(bound) => match &bound.meaning {
            Meaning::Variable(_) | Meaning::Constant(_) => false,
            Meaning::Function(other) => other.defined,
        },
    }
}

// Declares a function.
#[tactic(auto, using(crate::proofs::FunctionLaws::declare_laws))]
fn declare(
    typer: &mut Typer,
    alloc: Global,
    name: &Ident,
    function: Signature,
) -> Result<(), AllocError>
    ensures { OnOk result (typer.new ≡ after (declare name.now function) typer.old) }
{
    let agrees = may_declare(typer, &name.name, &function);
    let defined = function.defined || was_defined(typer, &name.name);
    typer.expect(31, name.span, agrees);
    let level = typer.level;
    typer.bind(Bound {
        name: name.name.try_clone(alloc)?,
        level,
        meaning: Meaning::Function(Signature {
            callee: function.callee,
            defined,
            result: function.result,
            parameters: function.parameters,
        }),
    })
}

// The body of a function, in its frame.
#[tactic(auto, using(crate::proofs::FunctionLaws::body_laws))]
fn body(
    typer: &mut Typer,
    alloc: Global,
    kind: Option<Kind>,
    parameters: &Parameters,
    body: &Body,
) -> Result<Vector<TypedStatement>, AllocError>
    ensures made { IfOk result (λ list. list ≡ made_by (body_rule kind parameters.now body.now) typer.old) }
    ensures state { OnOk result (typer.new ≡ after (body_rule kind parameters.now body.now) typer.old) }
{
    let mark = typer.enter()?;
    bind_parameters(typer, alloc, parameters.variables.as_slice())?;
    let around = Around {
        result: kind,
        breaks: false,
        continues: false,
    };
    let list = in_turn(typer, alloc, around, body.statements.as_slice())?;
    typer.leave(mark);
    Ok(list)
}

// What a frame has of its own, set aside.
#[derive(Drop)]
struct Outer {
    labels: Names,
    cases: Cases,
}

fn set_aside(typer: &mut Typer, alloc: Global) -> Outer
    ensures labels { result.labels ≡ typer.old.labels }
    ensures cases { result.cases ≡ typer.old.cases }
    ensures state { typer.new ≡ bared typer.old }
{
    Outer {
        labels: replace(&mut typer.labels, Names::new(alloc)),
        cases: replace(&mut typer.cases, Cases::new(alloc)),
    }
}

fn enter_frame(typer: &mut Typer, alloc: Global, first: u32, temporary: u32)
    ensures { typer.new ≡ frame_state first temporary typer.old }
{
    typer.labels = Names::new(alloc);
    typer.cases = Cases::new(alloc);
    typer.local = first;
    typer.temporary = temporary;
}

fn leave_frame(typer: &mut Typer, outer: Outer, local: u32, temporary: u32)
    ensures { typer.new ≡ left_frame outer.labels outer.cases local temporary typer.old }
{
    typer.labels = outer.labels;
    typer.cases = outer.cases;
    typer.local = local;
    typer.temporary = temporary;
}

// A frame has at most 16,384 cells.
#[tactic(auto, using(crate::proofs::FunctionLaws::limit_laws))]
fn limit(typer: &mut Typer, span: Span, cells: u32)
    ensures { typer.new ≡ limited span cells typer.old }
{
    if cells > 16384 {
        typer.fault(37, span);
    }
}

// The body of a function, and how many cells its frame has. The first walk counts the cells of the locals, and the
// second knows where the temporaries begin.
fn framed(
    typer: &mut Typer,
    alloc: Global,
    span: Span,
    kind: Option<Kind>,
    parameters: &Parameters,
    tree: &Body,
) -> Result<(u32, Vector<TypedStatement>), AllocError>
    ensures made { IfOk result (λ r. r ≡ made_by (framed span parameters.now.cells (body_rule kind parameters.now tree.now)) typer.old) }
    ensures state { OnOk result (typer.new ≡ after (framed span parameters.now.cells (body_rule kind parameters.now tree.now)) typer.old) }
{
    let local = typer.local;
    let temporary = typer.temporary;
    let fault = typer.fault;
    let mark = typer.bound.len();
    let outer = set_aside(typer, alloc);
    enter_frame(typer, alloc, parameters.cells, 0);
    let _draft = body(typer, alloc, kind, parameters, tree)?;
    let locals_end = typer.local;
    typer.bound.leave(mark);
    typer.fault = fault;
    enter_frame(typer, alloc, parameters.cells, locals_end);
    let list = body(typer, alloc, kind, parameters, tree)?;
    let cells = typer.temporary;
    limit(typer, span, cells);
    leave_frame(typer, outer, local, temporary);
    Ok((cells, list))
}

// A function that is defined, where it has a body.
#[tactic(auto, using(crate::proofs::FunctionLaws::defined_laws))]
fn defined(
    typer: &mut Typer,
    alloc: Global,
    span: Span,
    kind: Option<Kind>,
    name: &Ident,
    parameters: Parameters,
    body: &Option<Body>,
    out: &mut Vector<TypedFunction>,
) -> Result<(), AllocError>
    ensures made { OnOk result (out.new ≡ out.old ++ made_by (defined_rule span kind name.now parameters body.now) typer.old) }
    ensures state { OnOk result (typer.new ≡ after (defined_rule span kind name.now parameters body.now) typer.old) }
{
    match body {
        None => Ok(()),
        Some(tree) => {
            let made = framed(typer, alloc, span, kind, &parameters, tree)?;
            out.push(TypedFunction {
                name: name.name.try_clone(alloc)?,
                span,
                close: tree.close,
                result: kind,
                parameters: parameters.variables,
                cells: made.0,
                body: made.1,
            })?;
            Ok(())
        }
    }
}

/// A function that is declared or defined.
#[tactic(auto, using(crate::proofs::FunctionLaws::function_laws))]
pub(crate) fn function(
    typer: &mut Typer,
    alloc: Global,
    callee: Option<Callee>,
    span: Span,
    kind: Option<Kind>,
    name: &Ident,
    trees: &[Parameter],
    body: &Option<Body>,
    out: &mut Vector<TypedFunction>,
) -> Result<(), AllocError>
    ensures made { OnOk result (out.new ≡ out.old ++ made_by (function_rule callee span kind name.now trees.now body.now) typer.old) }
    ensures state { OnOk result (typer.new ≡ after (function_rule callee span kind name.now trees.now body.now) typer.old) }
{
    let mark = typer.enter()?;
    let list = parameter_list(typer, alloc, body.is_some(), trees)?;
    typer.leave(mark);
    let signature = signature_of(alloc, callee, body.is_some(), kind, &list)?;
    declare(typer, alloc, name, signature)?;
    defined(typer, alloc, span, kind, name, list, body, out)
}
