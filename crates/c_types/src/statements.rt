// The typing of statements.
ghost use Rattle.std.specs.Prelude.{◌≡◌, ◌++◌, ◌∷◌, [], option_map, IfOk, OnOk};
ghost use Rattle.c_type_rules.specs.Rule.{after, made_by};
ghost use Rattle.c_types.specs.Declarations.{statement_of};
ghost use Rattle.c_types.specs.Statements.{alone, arm_of, arm_rule, arms_typing, call_statement, first_rule, group, group_rule, groups_typing, last_rule, next_rule, one_of, part, return_rule, single, statement_rule, statements_typing, switch_rule, test_rule};

use crate::around::Around;
use crate::declarations::locals;
use crate::places::{assigned, in_cases, in_loop, one_at, place, step_operator};
use crate::switches::{cases, unused_label};
use c_parse::{ExprTree, Form, Group, Ident, Statement};
use c_type_rules::{Cases, Typer, converted_to, promotion};
use c_typed_trees::{TypedExpr, TypedForm, TypedGroup, TypedStatement};
use c_values::Kind;
use containers::{Boxed, TryClone, Vector};
use fq_core::Span;
use std::alloc::{AllocError, Global};

// The one statement of a list, or a block of the list.
#[tactic(auto, using(crate::proofs::PartLaws::one_of_laws))]
fn one_of(span: Span, mut list: Vector<TypedStatement>) -> Result<TypedStatement, AllocError>
    ensures { IfOk result (λ s. s ≡ one_of span list) }
{
    match list.pop() {
        None => Ok(TypedStatement {
            span,
            form: TypedForm::Empty,
        }),
        Some(last) => {
            if list.is_empty() {
                return Ok(last);
            }
            list.push(last)?;
            Ok(TypedStatement {
                span,
                form: TypedForm::Block(list),
            })
        }
    }
}

fn pushed(span: Span, form: TypedForm, out: &mut Vector<TypedStatement>) -> Result<(), AllocError>
    ensures { OnOk result (out.new ≡ out.old ++ statement_of span form ∷ []) }
{
    out.push(TypedStatement { span, form })?;
    Ok(())
}

/// A `return`.
#[tactic(auto, using(crate::proofs::PartLaws::return_laws))]
fn returned(
    typer: &mut Typer,
    alloc: Global,
    kind: Option<Kind>,
    span: Span,
    value: &Option<ExprTree>,
    out: &mut Vector<TypedStatement>,
) -> Result<(), AllocError>
    ensures made { OnOk result (out.new ≡ out.old ++ made_by (return_rule kind span value.now) typer.old) }
    ensures state { OnOk result (typer.new ≡ after (return_rule kind span value.now) typer.old) }
{
    match (kind, value) {
        (None, None) => pushed(span, TypedForm::Return(None), out),
        (Some(kind), Some(tree)) => {
            let value = typer.integer(alloc, tree)?;
            let value = Some(converted_to(alloc, kind, value)?);
            pushed(span, TypedForm::Return(value), out)
        }
        (None, Some(tree)) => {
            typer.fault(29, span);
            let _value = typer.integer(alloc, tree)?;
            pushed(span, TypedForm::Empty, out)
        }
        (Some(_), None) => {
            typer.fault(29, span);
            pushed(span, TypedForm::Empty, out)
        }
    }
}

// A call whose result is not used.
#[tactic(auto, using(crate::proofs::PartLaws::call_laws))]
fn called(
    typer: &mut Typer,
    alloc: Global,
    span: Span,
    name: &Ident,
    trees: &[ExprTree],
    out: &mut Vector<TypedStatement>,
) -> Result<(), AllocError>
    ensures made { OnOk result (out.new ≡ out.old ++ made_by (call_statement span name.now trees.now) typer.old) }
    ensures state { OnOk result (typer.new ≡ after (call_statement span name.now trees.now) typer.old) }
{
    let call = typer.call(alloc, name.span, &name.name, trees)?;
    pushed(span, TypedForm::Call(call.1), out)
}

// The condition of a `for`.
#[tactic(auto, using(crate::proofs::PartLaws::test_laws))]
fn condition(
    typer: &mut Typer,
    alloc: Global,
    tree: &Option<ExprTree>,
) -> Result<Option<TypedExpr>, AllocError>
    ensures made { IfOk result (λ test. test ≡ made_by (test_rule tree.now) typer.old) }
    ensures state { OnOk result (typer.new ≡ after (test_rule tree.now) typer.old) }
{
    match tree {
        None => Ok(None),
        Some(tree) => Ok(Some(typer.integer(alloc, tree)?)),
    }
}

/// The statements that a statement or a declaration becomes.
#[cycle(statements)]
#[tactic(auto, using(crate::proofs::StatementLaws::statement_laws))]
pub(crate) fn statement(
    typer: &mut Typer,
    alloc: Global,
    around: Around,
    tree: &Statement,
    out: &mut Vector<TypedStatement>,
) -> Result<(), AllocError>
    ensures made { OnOk result (out.new ≡ out.old ++ made_by (statement_rule around tree.now) typer.old) }
    ensures state { OnOk result (typer.new ≡ after (statement_rule around tree.now) typer.old) }
{
    let span = tree.span;
    match &tree.form {
        Form::Block(list) => {
            let mark = typer.enter()?;
            let body = in_turn(typer, alloc, around, list.as_slice())?;
            typer.leave(mark);
            pushed(span, TypedForm::Block(body), out)
        }
        Form::Empty => pushed(span, TypedForm::Empty, out),
        Form::Local { kind, list } => locals(typer, alloc, span, *kind, list.as_slice(), out),
        Form::Assign {
            place: to,
            operator,
            value,
        } => {
            let to = place(typer, alloc, &to.name, &to.index)?;
            let value = typer.integer(alloc, value)?;
            pushed(span, assigned(alloc, to, *operator, value)?, out)
        }
        Form::Step { place: to, up } => {
            let to = place(typer, alloc, &to.name, &to.index)?;
            let operator = Some(step_operator(*up));
            pushed(span, assigned(alloc, to, operator, one_at(span))?, out)
        }
        Form::Call { name, arguments } => called(
            typer,
            alloc,
            span,
            name,
            arguments.as_slice(),
            out,
        ),
        Form::Label { name, body } => {
            unused_label(typer, alloc, name)?;
            let body = Boxed::new(alloc, single(typer, alloc, around, body)?)?;
            let name = name.name.try_clone(alloc)?;
            pushed(span, TypedForm::Label { name, body }, out)
        }
        Form::If {
            arms: list,
            otherwise,
        } => {
            let list = arms(typer, alloc, around, list.as_slice())?;
            match otherwise {
                None => pushed(
                    span,
                    TypedForm::If {
                        arms: list,
                        otherwise: None,
                    },
                    out,
                ),
                Some(last) => {
                    let last = Boxed::new(alloc, alone(typer, alloc, around, last)?)?;
                    pushed(
                        span,
                        TypedForm::If {
                            arms: list,
                            otherwise: Some(last),
                        },
                        out,
                    )
                }
            }
        }
        Form::While { test, body } => {
            let test = typer.integer(alloc, test)?;
            let body = Boxed::new(alloc, alone(typer, alloc, in_loop(around), body)?)?;
            pushed(span, TypedForm::While { test, body }, out)
        }
        Form::Do { body, test } => {
            let body = Boxed::new(alloc, alone(typer, alloc, in_loop(around), body)?)?;
            let test = typer.integer(alloc, test)?;
            pushed(span, TypedForm::Do { body, test }, out)
        }
        Form::For {
            first,
            test,
            next,
            body,
        } => {
            let mark = typer.enter()?;
            let first = beginning(typer, alloc, around, first)?;
            let test = condition(typer, alloc, test)?;
            let next = ending(typer, alloc, around, next)?;
            let body = Boxed::new(alloc, alone(typer, alloc, in_loop(around), body)?)?;
            typer.leave(mark);
            pushed(
                span,
                TypedForm::For {
                    first,
                    test,
                    next,
                    body,
                },
                out,
            )
        }
        Form::Switch {
            value,
            groups: list,
        } => {
            let cell = typer.new_temporary()?;
            let value = typer.integer(alloc, value)?;
            let kind = promotion(value.kind);
            let groups = switch(typer, alloc, in_cases(around), kind, list.as_slice())?;
            let value = converted_to(alloc, kind, value)?;
            pushed(
                span,
                TypedForm::Switch {
                    value,
                    cell,
                    groups,
                },
                out,
            )
        }
        Form::Break => {
            typer.expect(29, span, around.breaks);
            pushed(span, TypedForm::Break, out)
        }
        Form::Continue => {
            typer.expect(29, span, around.continues);
            pushed(span, TypedForm::Continue, out)
        }
        Form::Return(value) => returned(typer, alloc, around.result, span, value, out),
        Form::Assert(test) => {
            let test = typer.integer(alloc, test)?;
            pushed(span, TypedForm::Assert(test), out)
        }
        Form::Assume(test) => {
            let test = typer.integer(alloc, test)?;
            pushed(span, TypedForm::Assume(test), out)
        }
    }
}

/// Statements in the scope that is there.
#[cycle(statements)]
pub(crate) fn in_turn(
    typer: &mut Typer,
    alloc: Global,
    around: Around,
    trees: &[Statement],
) -> Result<Vector<TypedStatement>, AllocError>
    ensures made { IfOk result (λ list. list ≡ made_by (statements_typing around trees.now) typer.old) }
    ensures state { OnOk result (typer.new ≡ after (statements_typing around trees.now) typer.old) }
{
    let mut list = Vector::new(alloc);
    for tree in trees {
        statement(typer, alloc, around, tree, &mut list)?;
    }
    Ok(list)
}

// One statement, in the scope that is there.
#[cycle(statements)]
#[tactic(auto, using(crate::proofs::StatementLaws::single_laws))]
fn single(
    typer: &mut Typer,
    alloc: Global,
    around: Around,
    tree: &Statement,
) -> Result<TypedStatement, AllocError>
    ensures made { IfOk result (λ s. s ≡ made_by (single around (part tree.now)) typer.old) }
    ensures state { OnOk result (typer.new ≡ after (single around (part tree.now)) typer.old) }
{
    let mut list = Vector::new(alloc);
    statement(typer, alloc, around, tree, &mut list)?;
    one_of(tree.span, list)
}

// A statement that is a scope of its own.
#[cycle(statements)]
#[tactic(auto, using(crate::proofs::StatementLaws::alone_laws))]
fn alone(
    typer: &mut Typer,
    alloc: Global,
    around: Around,
    tree: &Statement,
) -> Result<TypedStatement, AllocError>
    ensures made { IfOk result (λ s. s ≡ made_by (alone around (part tree.now)) typer.old) }
    ensures state { OnOk result (typer.new ≡ after (alone around (part tree.now)) typer.old) }
{
    let mark = typer.enter()?;
    let body = single(typer, alloc, around, tree)?;
    typer.leave(mark);
    Ok(body)
}

// The part of a `for` before its condition.
#[cycle(statements)]
#[tactic(auto, using(crate::proofs::StatementLaws::first_laws))]
fn beginning(
    typer: &mut Typer,
    alloc: Global,
    around: Around,
    first: &Option<Boxed<Statement>>,
) -> Result<Vector<TypedStatement>, AllocError>
    ensures made { IfOk result (λ list. list ≡ made_by (first_rule around (option_map part first.now)) typer.old) }
    ensures state { OnOk result (typer.new ≡ after (first_rule around (option_map part first.now)) typer.old) }
{
    let mut list = Vector::new(alloc);
    match first {
        None => Ok(list),
        Some(tree) => {
            statement(typer, alloc, around, tree, &mut list)?;
            Ok(list)
        }
    }
}

// The part of a `for` behind its condition.
#[cycle(statements)]
#[tactic(auto, using(crate::proofs::StatementLaws::next_laws))]
fn ending(
    typer: &mut Typer,
    alloc: Global,
    around: Around,
    next: &Option<Boxed<Statement>>,
) -> Result<Option<Boxed<TypedStatement>>, AllocError>
    ensures made { IfOk result (λ one. one ≡ made_by (next_rule around (option_map part next.now)) typer.old) }
    ensures state { OnOk result (typer.new ≡ after (next_rule around (option_map part next.now)) typer.old) }
{
    match next {
        None => Ok(None),
        Some(tree) => Ok(Some(Boxed::new(alloc, single(typer, alloc, around, tree)?)?)),
    }
}

// The arms of an `if`.
#[cycle(statements)]
fn arms(
    typer: &mut Typer,
    alloc: Global,
    around: Around,
    trees: &[(ExprTree, Statement)],
) -> Result<Vector<(TypedExpr, TypedStatement)>, AllocError>
    ensures made { IfOk result (λ list. list ≡ made_by (arms_typing around trees.now) typer.old) }
    ensures state { OnOk result (typer.new ≡ after (arms_typing around trees.now) typer.old) }
{
    let mut list = Vector::new(alloc);
    for tree in trees {
        list.push(arm(typer, alloc, around, tree)?)?;
    }
    Ok(list)
}

// One arm of an `if`.
#[cycle(statements)]
#[tactic(auto, using(crate::proofs::StatementLaws::arm_laws))]
fn arm(
    typer: &mut Typer,
    alloc: Global,
    around: Around,
    arm: &(ExprTree, Statement),
) -> Result<(TypedExpr, TypedStatement), AllocError>
    ensures made { IfOk result (λ one. one ≡ made_by (arm_rule around (arm_of arm.now)) typer.old) }
    ensures state { OnOk result (typer.new ≡ after (arm_rule around (arm_of arm.now)) typer.old) }
{
    let (test, body) = arm;
    let test = typer.integer(alloc, test)?;
    let body = alone(typer, alloc, around, body)?;
    Ok((test, body))
}

// The groups of a `switch`, which are one scope.
#[cycle(statements)]
#[tactic(auto, using(crate::proofs::StatementLaws::switch_laws))]
fn switch(
    typer: &mut Typer,
    alloc: Global,
    around: Around,
    kind: Kind,
    trees: &[Group],
) -> Result<Vector<TypedGroup>, AllocError>
    ensures made { IfOk result (λ list. list ≡ made_by (switch_rule around kind trees.now) typer.old) }
    ensures state { OnOk result (typer.new ≡ after (switch_rule around kind trees.now) typer.old) }
{
    let mark = typer.enter()?;
    let outer = typer.replace_cases(Cases::new(alloc));
    let list = groups(typer, alloc, around, kind, trees)?;
    let _inner = typer.replace_cases(outer);
    typer.leave(mark);
    Ok(list)
}

// The groups of a `switch`.
#[cycle(statements)]
fn groups(
    typer: &mut Typer,
    alloc: Global,
    around: Around,
    kind: Kind,
    trees: &[Group],
) -> Result<Vector<TypedGroup>, AllocError>
    ensures made { IfOk result (λ list. list ≡ made_by (groups_typing around kind trees.now) typer.old) }
    ensures state { OnOk result (typer.new ≡ after (groups_typing around kind trees.now) typer.old) }
{
    let mut list = Vector::new(alloc);
    for tree in trees {
        list.push(one_group(typer, alloc, around, kind, tree)?)?;
    }
    Ok(list)
}

// The labels of a group, and its statements.
#[cycle(statements)]
#[tactic(auto, using(crate::proofs::StatementLaws::group_laws))]
fn one_group(
    typer: &mut Typer,
    alloc: Global,
    around: Around,
    kind: Kind,
    tree: &Group,
) -> Result<TypedGroup, AllocError>
    ensures made { IfOk result (λ g. g ≡ made_by (group_rule around kind (group tree.now)) typer.old) }
    ensures state { OnOk result (typer.new ≡ after (group_rule around kind (group tree.now)) typer.old) }
{
    let labels = cases(typer, alloc, kind, tree.labels.as_slice())?;
    let body = in_turn(typer, alloc, around, tree.body.as_slice())?;
    Ok(TypedGroup { labels, body })
}
