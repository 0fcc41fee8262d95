// The typing of labels: those of a function, and `case` and `default`.
ghost use Rattle.std.specs.Prelude.{◌≡◌, IfOk, OnOk};
ghost use Rattle.c_type_rules.specs.Rule.{after, made_by};
ghost use Rattle.c_types.specs.Statements.{case_rule, case_valued, cases_rule, fresh, unused_label};

use c_parse::{CaseLabel, ExprTree, Ident};
use c_type_rules::Typer;
use c_values::Kind;
use containers::{TryClone, Vector};
use fq_core::Span;
use std::alloc::{AllocError, Global};

/// A label stands once in a function.
#[tactic(auto, using(crate::proofs::PartLaws::label_laws))]
pub(crate) fn unused_label(typer: &mut Typer, alloc: Global, name: &Ident) -> Result<(), AllocError>
    ensures { OnOk result (typer.new ≡ after (unused_label name.now) typer.old) }
{
    let here = typer.labels.has(&name.name);
    typer.expect(31, name.span, !here);
    typer.bind_label(name.name.try_clone(alloc)?)
}

// A value of `case`, or `default`, stands once in a `switch`.
#[tactic(auto, using(crate::proofs::PartLaws::fresh_laws))]
fn fresh(
    typer: &mut Typer,
    span: Span,
    value: Option<u64>,
) -> Result<(Span, Option<u64>), AllocError>
    ensures made { IfOk result (λ label. label ≡ made_by (fresh span value) typer.old) }
    ensures state { OnOk result (typer.new ≡ after (fresh span value) typer.old) }
{
    let here = typer.cases.has(value);
    typer.expect(31, span, !here);
    typer.bind_case(value)?;
    Ok((span, value))
}

// A `case` of a value, if it has one.
#[tactic(auto, using(crate::proofs::PartLaws::valued_laws))]
fn case_valued(
    typer: &mut Typer,
    span: Span,
    value: Option<u64>,
) -> Result<(Span, Option<u64>), AllocError>
    ensures made { IfOk result (λ label. label ≡ made_by (case_valued span value) typer.old) }
    ensures state { OnOk result (typer.new ≡ after (case_valued span value) typer.old) }
{
    match value {
        None => Ok((span, None)),
        Some(value) => fresh(typer, span, Some(value)),
    }
}

// A `case`, whose value is converted to a kind, or a `default`.
#[tactic(auto, using(crate::proofs::PartLaws::case_laws))]
fn one_case(
    typer: &mut Typer,
    alloc: Global,
    kind: Kind,
    span: Span,
    value: &Option<ExprTree>,
) -> Result<(Span, Option<u64>), AllocError>
    ensures made { IfOk result (λ label. label ≡ made_by (case_rule kind span value.now) typer.old) }
    ensures state { OnOk result (typer.new ≡ after (case_rule kind span value.now) typer.old) }
{
    match value {
        None => fresh(typer, span, None),
        Some(tree) => {
            let value = typer.constant(alloc, Some(kind), tree)?;
            case_valued(typer, span, value)
        }
    }
}

/// The labels of a group.
pub(crate) fn cases(
    typer: &mut Typer,
    alloc: Global,
    kind: Kind,
    labels: &[CaseLabel],
) -> Result<Vector<(Span, Option<u64>)>, AllocError>
    ensures made { IfOk result (λ list. list ≡ made_by (cases_rule kind labels.now) typer.old) }
    ensures state { OnOk result (typer.new ≡ after (cases_rule kind labels.now) typer.old) }
{
    let mut list = Vector::new(alloc);
    for label in labels {
        list.push(one_case(typer, alloc, kind, label.span, &label.value)?)?;
    }
    Ok(list)
}
