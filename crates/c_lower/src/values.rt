// Expressions, as values and as conditions.
ghost use Rattle.std.specs.Prelude.{◌≡◌, ◌+◌, ◌<◌, [], map, IfOk, IfErr, OnOk};
ghost use Rattle.c_values.specs.Kind.{int};
ghost use Rattle.c_lower_rules.specs.graph_of.Builder.{after, made_by};
ghost use Rattle.c_lower_rules.specs.graph_of.Edges.{put};
ghost use Rattle.c_lower_rules.specs.graph_of.Expressions.{value_of, spot_of, spot_cell, calling_of, call_pure, truth_pure, choice_pure, part_row, words_in_order, both_cond, either_cond, other_cond};
ghost use Rattle.c_lower.specs.Flows.{end_of, gives_of};
ghost use Rattle.c_lower.specs.Stopping.{IsStop};

use crate::around::deciding;
use crate::calls::call_edges;
use crate::edges::{guards, put};
use crate::make::{new_node, three_nodes};
use crate::operands::{binary, constant, converted, loaded, temporary, unary};
use crate::places::{cell_of, element_of};
use crate::stop::Stop;
use c_lower_rules::graph_of::{Around, Operand, Parts, Target};
use c_typed_trees::{TypedCall, TypedExpr, TypedExprForm, TypedPlace};
use c_values::{Kind, UnaryOp};
use cfa::{CellPlace, Expr};
use containers::Vector;
use std::alloc::Global;

/// The cell of a place, where control is then.
#[cycle(value)]
#[tactic(auto, using(crate::proofs::ExpressionLaws::spot_laws))]
pub(crate) fn spot(
    alloc: Global,
    around: &Around,
    a: u32,
    place: &TypedPlace,
    parts: &mut Parts,
) -> Result<(u32, Target), Stop>
    ensures made { OnOk result (parts.new ≡ after (made_by (spot_cell (spot_of place.now) around.now) a) parts.old) }
    ensures end { IfOk result (λ r. r.0 ≡ end_of (spot_cell (spot_of place.now) around.now) a parts.old) }
    ensures gives { IfOk result (λ r. r.1 ≡ gives_of (spot_cell (spot_of place.now) around.now) a parts.old) }
    ensures err { IfErr result (λ stop. IsStop stop (after (made_by (spot_cell (spot_of place.now) around.now) a) parts.old)) }
{
    match &place.index {
        None => Ok((
            a,
            Target {
                place: cell_of(alloc, place.variable.place)?,
                reads: Vector::new(alloc),
            },
        )),
        Some(index) => {
            let (end, operand) = value(alloc, around, a, index, parts)?;
            let Operand { value, reads } = operand;
            let place = element_of(alloc, &place.variable, value)?;
            Ok((end, Target { place, reads }))
        }
    }
}

/// The words of a call, one after another.
#[cycle(value)]
#[tactic(auto, using(crate::proofs::Stops::stop_grows))]
pub(crate) fn words(
    alloc: Global,
    around: &Around,
    a: u32,
    list: &[TypedExpr],
    parts: &mut Parts,
) -> Result<(u32, Vector<Operand>), Stop>
    ensures made { OnOk result (parts.new ≡ after (made_by (words_in_order (map value_of list.now) around.now) a) parts.old) }
    ensures end { IfOk result (λ r. r.0 ≡ end_of (words_in_order (map value_of list.now) around.now) a parts.old) }
    ensures gives { IfOk result (λ r. r.1 ≡ gives_of (words_in_order (map value_of list.now) around.now) a parts.old) }
    ensures err { IfErr result (λ stop. IsStop stop (after (made_by (words_in_order (map value_of list.now) around.now) a) parts.old)) }
{
    let mut here = a;
    let mut operands = Vector::new(alloc);
    for word in list {
        let (end, operand) = value(alloc, around, here, word, parts)?;
        operands.push(operand)?;
        here = end;
    }
    Ok((here, operands))
}

/// A call, whose result is put into its temporary.
#[cycle(value)]
#[tactic(auto, using(crate::proofs::ExpressionLaws::call_value_laws))]
fn call(
    alloc: Global,
    around: &Around,
    a: u32,
    tree: &TypedCall,
    kind: Kind,
    parts: &mut Parts,
) -> Result<(u32, Operand), Stop>
    ensures made { OnOk result (parts.new ≡ after (made_by (call_pure (calling_of tree.now) kind around.now) a) parts.old) }
    ensures end { IfOk result (λ r. r.0 ≡ end_of (call_pure (calling_of tree.now) kind around.now) a parts.old) }
    ensures gives { IfOk result (λ r. r.1 ≡ gives_of (call_pure (calling_of tree.now) kind around.now) a parts.old) }
    ensures err { IfErr result (λ stop. IsStop stop (after (made_by (call_pure (calling_of tree.now) kind around.now) a) parts.old)) }
{
    let node = new_node(around, around.span, parts)?;
    let (end, operands) = words(alloc, around, a, &tree.words, parts)?;
    let dest = Some(CellPlace::Local(tree.cell));
    call_edges(
        alloc,
        around,
        tree.callee,
        &tree.arrays,
        operands,
        dest,
        end,
        node,
        parts,
    )?;
    Ok((node, temporary(alloc, tree.cell, kind)))
}

/// The edges that put 1 or 0 into a temporary, from two nodes in a row to the third.
#[tactic(auto, using(crate::proofs::Stops::stop_grows))]
fn truths(alloc: Global, around: &Around, cell: u32, n: u32, parts: &mut Parts) -> Result<(), Stop>
    requires { n + 2 < 4294967296 }
    ensures made { OnOk result (parts.new ≡ after (put around.now cell (Expr.Constant 0 int) [] (n + 1) (n + 2)) (after (put around.now cell (Expr.Constant 1 int) [] n (n + 2)) parts.old)) }
    ensures err { IfErr result (λ stop. IsStop stop (after (put around.now cell (Expr.Constant 0 int) [] (n + 1) (n + 2)) (after (put around.now cell (Expr.Constant 1 int) [] n (n + 2)) parts.old))) }
{
    let yes = constant(alloc, 1, Kind::INT);
    put(alloc, around, cell, yes.value, yes.reads, n, n + 2, parts)?;
    let no = constant(alloc, 0, Kind::INT);
    put(alloc, around, cell, no.value, no.reads, n + 1, n + 2, parts)
}

/// `&&` as a value.
#[cycle(value)]
#[tactic(auto, using(crate::proofs::ExpressionLaws::truth_laws))]
fn both_value(
    alloc: Global,
    around: &Around,
    a: u32,
    left: &TypedExpr,
    right: &TypedExpr,
    cell: u32,
    kind: Kind,
    parts: &mut Parts,
) -> Result<(u32, Operand), Stop>
    ensures made { OnOk result (parts.new ≡ after (made_by (truth_pure (both_cond (value_of left.now) (value_of right.now)) cell kind around.now) a) parts.old) }
    ensures end { IfOk result (λ r. r.0 ≡ end_of (truth_pure (both_cond (value_of left.now) (value_of right.now)) cell kind around.now) a parts.old) }
    ensures gives { IfOk result (λ r. r.1 ≡ gives_of (truth_pure (both_cond (value_of left.now) (value_of right.now)) cell kind around.now) a parts.old) }
    ensures err { IfErr result (λ stop. IsStop stop (after (made_by (truth_pure (both_cond (value_of left.now) (value_of right.now)) cell kind around.now) a) parts.old)) }
{
    let n = three_nodes(around, parts)?;
    let inner = deciding(around, n, n + 1)?;
    both(alloc, &inner, left, right, a, n, n + 1, parts)?;
    truths(alloc, around, cell, n, parts)?;
    Ok((n + 2, temporary(alloc, cell, kind)))
}

/// `||` as a value.
#[cycle(value)]
#[tactic(auto, using(crate::proofs::ExpressionLaws::truth_laws))]
fn either_value(
    alloc: Global,
    around: &Around,
    a: u32,
    left: &TypedExpr,
    right: &TypedExpr,
    cell: u32,
    kind: Kind,
    parts: &mut Parts,
) -> Result<(u32, Operand), Stop>
    ensures made { OnOk result (parts.new ≡ after (made_by (truth_pure (either_cond (value_of left.now) (value_of right.now)) cell kind around.now) a) parts.old) }
    ensures end { IfOk result (λ r. r.0 ≡ end_of (truth_pure (either_cond (value_of left.now) (value_of right.now)) cell kind around.now) a parts.old) }
    ensures gives { IfOk result (λ r. r.1 ≡ gives_of (truth_pure (either_cond (value_of left.now) (value_of right.now)) cell kind around.now) a parts.old) }
    ensures err { IfErr result (λ stop. IsStop stop (after (made_by (truth_pure (either_cond (value_of left.now) (value_of right.now)) cell kind around.now) a) parts.old)) }
{
    let n = three_nodes(around, parts)?;
    let inner = deciding(around, n, n + 1)?;
    either(alloc, &inner, left, right, a, n, n + 1, parts)?;
    truths(alloc, around, cell, n, parts)?;
    Ok((n + 2, temporary(alloc, cell, kind)))
}

/// A part of `?:`, whose value is put into the temporary.
#[cycle(value)]
#[tactic(auto, using(crate::proofs::ExpressionLaws::part_laws))]
pub(crate) fn part(
    alloc: Global,
    around: &Around,
    tree: &TypedExpr,
    cell: u32,
    a: u32,
    z: u32,
    parts: &mut Parts,
) -> Result<(), Stop>
    ensures made { OnOk result (parts.new ≡ after (part_row (value_of tree.now) cell around.now a z) parts.old) }
    ensures err { IfErr result (λ stop. IsStop stop (after (part_row (value_of tree.now) cell around.now a z) parts.old)) }
{
    let (end, operand) = value(alloc, around, a, tree, parts)?;
    let Operand { value, reads } = operand;
    put(alloc, around, cell, value, reads, end, z, parts)
}

/// `?:`.
#[cycle(value)]
#[tactic(auto, using(crate::proofs::ExpressionLaws::choice_laws))]
fn choice(
    alloc: Global,
    around: &Around,
    a: u32,
    test: &TypedExpr,
    yes: &TypedExpr,
    no: &TypedExpr,
    cell: u32,
    kind: Kind,
    parts: &mut Parts,
) -> Result<(u32, Operand), Stop>
    ensures made { OnOk result (parts.new ≡ after (made_by (choice_pure (value_of test.now) (value_of yes.now) (value_of no.now) cell kind around.now) a) parts.old) }
    ensures end { IfOk result (λ r. r.0 ≡ end_of (choice_pure (value_of test.now) (value_of yes.now) (value_of no.now) cell kind around.now) a parts.old) }
    ensures gives { IfOk result (λ r. r.1 ≡ gives_of (choice_pure (value_of test.now) (value_of yes.now) (value_of no.now) cell kind around.now) a parts.old) }
    ensures err { IfErr result (λ stop. IsStop stop (after (made_by (choice_pure (value_of test.now) (value_of yes.now) (value_of no.now) cell kind around.now) a) parts.old)) }
{
    let n = three_nodes(around, parts)?;
    let inner = deciding(around, n, n + 1)?;
    condition(alloc, &inner, test, a, n, n + 1, parts)?;
    part(alloc, around, yes, cell, n, n + 2, parts)?;
    part(alloc, around, no, cell, n + 1, n + 2, parts)?;
    Ok((n + 2, temporary(alloc, cell, kind)))
}

/// What an expression makes from a node on: the node where control is then, and the value there.
#[cycle(value)]
#[tactic(auto, using(crate::proofs::ExpressionLaws::value_laws))]
pub(crate) fn value(
    alloc: Global,
    around: &Around,
    a: u32,
    tree: &TypedExpr,
    parts: &mut Parts,
) -> Result<(u32, Operand), Stop>
    ensures made { OnOk result (parts.new ≡ after (made_by ((value_of tree.now).pure around.now) a) parts.old) }
    ensures end { IfOk result (λ r. r.0 ≡ end_of ((value_of tree.now).pure around.now) a parts.old) }
    ensures gives { IfOk result (λ r. r.1 ≡ gives_of ((value_of tree.now).pure around.now) a parts.old) }
    ensures err { IfErr result (λ stop. IsStop stop (after (made_by ((value_of tree.now).pure around.now) a) parts.old)) }
{
    match &tree.form {
        TypedExprForm::Constant(n) => Ok((a, constant(alloc, *n, tree.kind))),
        TypedExprForm::Load(place) => {
            let (end, target) = spot(alloc, around, a, place, parts)?;
            Ok((end, loaded(alloc, &place.variable.name, target, tree.kind)?))
        }
        TypedExprForm::Convert(inner) => {
            let (end, operand) = value(alloc, around, a, inner, parts)?;
            Ok((end, converted(alloc, operand, tree.kind)?))
        }
        TypedExprForm::Unary(op, inner) => {
            let (end, operand) = value(alloc, around, a, inner, parts)?;
            Ok((end, unary(alloc, *op, operand, inner.kind)?))
        }
        TypedExprForm::Binary(op, left, right) => {
            let (middle, v) = value(alloc, around, a, left, parts)?;
            let (end, w) = value(alloc, around, middle, right, parts)?;
            Ok((end, binary(alloc, *op, v, w, left.kind)?))
        }
        TypedExprForm::Both { left, right, cell } => {
            both_value(alloc, around, a, left, right, *cell, tree.kind, parts)
        }
        TypedExprForm::Either { left, right, cell } => {
            either_value(alloc, around, a, left, right, *cell, tree.kind, parts)
        }
        TypedExprForm::Choice {
            test,
            yes,
            no,
            cell,
        } => choice(alloc, around, a, test, yes, no, *cell, tree.kind, parts),
        TypedExprForm::Call(tree_of_call) => {
            call(alloc, around, a, tree_of_call, tree.kind, parts)
        }
    }
}

/// `&&` as a condition.
#[cycle(value)]
#[tactic(auto, using(crate::proofs::ExpressionLaws::pair_laws))]
fn both(
    alloc: Global,
    around: &Around,
    left: &TypedExpr,
    right: &TypedExpr,
    a: u32,
    t: u32,
    f: u32,
    parts: &mut Parts,
) -> Result<(), Stop>
    ensures made { OnOk result (parts.new ≡ after (both_cond (value_of left.now) (value_of right.now) around.now a t f) parts.old) }
    ensures err { IfErr result (λ stop. IsStop stop (after (both_cond (value_of left.now) (value_of right.now) around.now a t f) parts.old)) }
{
    let m = new_node(around, right.span, parts)?;
    condition(alloc, around, left, a, m, f, parts)?;
    condition(alloc, around, right, m, t, f, parts)
}

/// `||` as a condition.
#[cycle(value)]
#[tactic(auto, using(crate::proofs::ExpressionLaws::pair_laws))]
fn either(
    alloc: Global,
    around: &Around,
    left: &TypedExpr,
    right: &TypedExpr,
    a: u32,
    t: u32,
    f: u32,
    parts: &mut Parts,
) -> Result<(), Stop>
    ensures made { OnOk result (parts.new ≡ after (either_cond (value_of left.now) (value_of right.now) around.now a t f) parts.old) }
    ensures err { IfErr result (λ stop. IsStop stop (after (either_cond (value_of left.now) (value_of right.now) around.now a t f) parts.old)) }
{
    let m = new_node(around, right.span, parts)?;
    condition(alloc, around, left, a, t, m, parts)?;
    condition(alloc, around, right, m, t, f, parts)
}

/// A condition that isn't taken apart.
#[cycle(value)]
#[tactic(auto, using(crate::proofs::ExpressionLaws::plain_laws))]
fn plain_condition(
    alloc: Global,
    around: &Around,
    tree: &TypedExpr,
    a: u32,
    t: u32,
    f: u32,
    parts: &mut Parts,
) -> Result<(), Stop>
    ensures made { OnOk result (parts.new ≡ after (other_cond tree.now.span (value_of tree.now).pure around.now a t f) parts.old) }
    ensures err { IfErr result (λ stop. IsStop stop (after (other_cond tree.now.span (value_of tree.now).pure around.now a t f) parts.old)) }
{
    let (n, operand) = value(alloc, around, a, tree, parts)?;
    let Operand { value, reads } = operand;
    guards(alloc, around, tree.span, value, reads, n, t, f, parts)
}

/// What an expression makes as a condition, from a node to one where it holds and one where it doesn't.
#[cycle(value)]
#[tactic(auto, using(crate::proofs::ExpressionLaws::condition_laws))]
pub(crate) fn condition(
    alloc: Global,
    around: &Around,
    tree: &TypedExpr,
    a: u32,
    t: u32,
    f: u32,
    parts: &mut Parts,
) -> Result<(), Stop>
    ensures made { OnOk result (parts.new ≡ after ((value_of tree.now).cond around.now a t f) parts.old) }
    ensures err { IfErr result (λ stop. IsStop stop (after ((value_of tree.now).cond around.now a t f) parts.old)) }
{
    match &tree.form {
        TypedExprForm::Unary(op, inner) => match op {
            UnaryOp::Not => condition(alloc, around, inner, a, f, t, parts),
            UnaryOp::Neg => plain_condition(alloc, around, tree, a, t, f, parts),
            UnaryOp::Complement => plain_condition(alloc, around, tree, a, t, f, parts),
        },
        TypedExprForm::Both { left, right, .. } => {
            both(alloc, around, left, right, a, t, f, parts)
        }
        TypedExprForm::Either { left, right, .. } => {
            either(alloc, around, left, right, a, t, f, parts)
        }
        _ => plain_condition(alloc, around, tree, a, t, f, parts),
    }
}
