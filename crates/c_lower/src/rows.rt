// Statements that hold no statements.
ghost use Rattle.std.specs.Prelude.{◌≡◌, ◌+◌, ◌<◌, [], ◌∷◌, map, length, slice_get, MatchOption, IfOk, IfErr, OnOk};
ghost use Rattle.std.specs.Option.{option_map};
ghost use Rattle.cfa.specs.declared.parts.Operation.TheVariants as operations;
ghost use Rattle.c_lower_rules.specs.graph_of.Builder.{after};
ghost use Rattle.c_lower_rules.specs.graph_of.Edges.{node_here};
ghost use Rattle.c_lower_rules.specs.graph_of.Expressions.{value_of, spot_of, calling_of};
ghost use Rattle.c_lower_rules.specs.graph_of.Statements.{return_row, test_row, assign_row, local_row, element_row, elements_row, clear, array_row, call_row, converted_to, combined, reads_in_place};
ghost use Rattle.c_lower.specs.Stopping.{IsStop};

use crate::calls::call_edges;
use crate::edges::{skip, step};
use crate::make::new_node;
use crate::operands::{joined, with_name};
use crate::places::{array_of, cell_of, element_of, length_of};
use crate::stop::Stop;
use crate::values::{spot, value, words};
use c_lower_rules::graph_of::{Around, Operand, Parts, Target};
use c_typed_trees::{TypedCall, TypedExpr, TypedPlace};
use c_values::{BinaryOp, Kind};
use cfa::{CellPlace, Expr, Operation, Variable};
use containers::{Boxed, TryClone, Vector};
use fq_core::Name;
use std::alloc::{AllocError, Global};

fn converted_to(alloc: Global, own: Kind, kind: Kind, value: Expr) -> Result<Expr, AllocError>
    ensures { IfOk result (λ e. e ≡ converted_to own kind value) }
{
    if own == kind {
        Ok(value)
    } else {
        Ok(Expr::Convert(Boxed::new(alloc, value)?, kind))
    }
}

/// What an assignment puts into a place.
fn combined(
    alloc: Global,
    kind: Kind,
    operator: Option<(BinaryOp, Kind)>,
    place: &CellPlace,
    value: Expr,
) -> Result<Expr, AllocError>
    ensures { IfOk result (λ e. e ≡ combined kind operator place.now value) }
{
    match operator {
        None => Ok(value),
        Some((op, done_in)) => {
            let own = Expr::Load(place.try_clone(alloc)?, kind);
            let left = converted_to(alloc, kind, done_in, own)?;
            let whole = Expr::Binary(
                op,
                Boxed::new(alloc, left)?,
                Boxed::new(alloc, value)?,
                done_in,
            );
            converted_to(alloc, whole.kind(), kind, whole)
        }
    }
}

/// The names that an assignment reads in its place.
fn reads_in_place(
    alloc: Global,
    variable: &Variable,
    operator: Option<(BinaryOp, Kind)>,
    index: Vector<Name>,
) -> Result<Vector<Name>, AllocError>
    ensures { IfOk result (λ names. names ≡ reads_in_place variable.now operator index) }
{
    match operator {
        None => Ok(index),
        Some(_) => with_name(alloc, &variable.name, index),
    }
}

fn one_name(alloc: Global, name: &Name) -> Result<Vector<Name>, AllocError>
    ensures { IfOk result (λ names. names ≡ name.now ∷ []) }
{
    let mut names = Vector::new(alloc);
    names.push(name.try_clone(alloc)?)?;
    Ok(names)
}

/// `p = e` and `p op= e`.
#[tactic(auto, using(crate::proofs::RowLaws::assign_laws))]
pub(crate) fn assign(
    alloc: Global,
    around: &Around,
    a: u32,
    z: u32,
    place: &TypedPlace,
    operator: Option<(BinaryOp, Kind)>,
    tree: &TypedExpr,
    parts: &mut Parts,
) -> Result<(), Stop>
    ensures made { OnOk result (parts.new ≡ after (assign_row (spot_of place.now) operator (value_of tree.now) around.now a z) parts.old) }
    ensures err { IfErr result (λ stop. IsStop stop (after (assign_row (spot_of place.now) operator (value_of tree.now) around.now a z) parts.old)) }
{
    let (middle, target) = spot(alloc, around, a, place, parts)?;
    let (end, operand) = value(alloc, around, middle, tree, parts)?;
    let Target { place: cell, reads } = target;
    let Operand {
        value,
        reads: of_value,
    } = operand;
    let variable = &place.variable;
    let of_place = reads_in_place(alloc, variable, operator, reads)?;
    let put = Operation::Assign {
        value: combined(alloc, variable.kind, operator, &cell, value)?,
        place: cell,
    };
    let writes = one_name(alloc, &variable.name)?;
    let reads = joined(of_place, of_value)?;
    step(around, put, writes, reads, end, z, parts)
}

/// An integer that is declared.
#[tactic(auto, using(crate::proofs::RowLaws::local_laws))]
pub(crate) fn local(
    alloc: Global,
    around: &Around,
    a: u32,
    z: u32,
    variable: &Variable,
    first: &Option<TypedExpr>,
    parts: &mut Parts,
) -> Result<(), Stop>
    ensures made { OnOk result (parts.new ≡ after (local_row variable.now (option_map value_of first.now) around.now a z) parts.old) }
    ensures err { IfErr result (λ stop. IsStop stop (after (local_row variable.now (option_map value_of first.now) around.now a z) parts.old)) }
{
    let place = cell_of(alloc, variable.place)?;
    let writes = one_name(alloc, &variable.name)?;
    match first {
        None => {
            let value = Expr::Constant(0, variable.kind);
            let put = Operation::Assign { place, value };
            step(around, put, writes, Vector::new(alloc), a, z, parts)
        }
        Some(tree) => {
            let (end, operand) = value(alloc, around, a, tree, parts)?;
            let Operand { value, reads } = operand;
            let put = Operation::Assign { place, value };
            step(around, put, writes, reads, end, z, parts)
        }
    }
}

/// A value is put into an element, by its index.
#[tactic(auto, using(crate::proofs::RowLaws::element_laws))]
fn element(
    alloc: Global,
    around: &Around,
    a: u32,
    z: u32,
    variable: &Variable,
    index: usize,
    tree: &TypedExpr,
    parts: &mut Parts,
) -> Result<(), Stop>
    ensures made { OnOk result (parts.new ≡ after (element_row variable.now index (value_of tree.now) around.now a z) parts.old) }
    ensures err { IfErr result (λ stop. IsStop stop (after (element_row variable.now index (value_of tree.now) around.now a z) parts.old)) }
{
    let (end, operand) = value(alloc, around, a, tree, parts)?;
    let Operand { value, reads } = operand;
    let place = element_of(alloc, variable, Expr::Constant(index as u64, Kind::INT))?;
    let put = Operation::Assign { place, value };
    step(
        around,
        put,
        one_name(alloc, &variable.name)?,
        reads,
        end,
        z,
        parts,
    )
}

/// Where the value of an element leads: to a new node before the next one, or to the end.
fn next_node(
    around: &Around,
    list: &[TypedExpr],
    i: usize,
    z: u32,
    parts: &mut Parts,
) -> Result<u32, Stop>
    requires { i < length list.now }
    ensures next { IfOk result (λ to. MatchOption (slice_get list.now (i + 1)) ((to ≡ z) × (parts.new ≡ parts.old)) (λ _. (to ≡ length parts.old.nodes) × (parts.new ≡ after (node_here around.now) parts.old))) }
    ensures memory { IfErr result (λ stop. stop ≡ Stop.Memory) }
{
    match list.get(i + 1) {
        None => Ok(z),
        Some(_) => new_node(around, around.span, parts),
    }
}

/// The values of an array's first elements.
#[tactic(auto, using(crate::proofs::Stops::stopping))]
fn elements(
    alloc: Global,
    around: &Around,
    a: u32,
    z: u32,
    variable: &Variable,
    list: &[TypedExpr],
    parts: &mut Parts,
) -> Result<(), Stop>
    ensures made { OnOk result (parts.new ≡ after (elements_row variable.now 0 (map value_of list.now) around.now a z) parts.old) }
    ensures err { IfErr result (λ stop. IsStop stop (after (elements_row variable.now 0 (map value_of list.now) around.now a z) parts.old)) }
{
    let mut here = a;
    for (i, tree) in list.iter().enumerate() {
        let to = next_node(around, list, i, z, parts)?;
        element(alloc, around, here, to, variable, i, tree, parts)?;
        here = to;
    }
    Ok(())
}

/// All elements of an array become 0.
fn clear(
    alloc: Global,
    around: &Around,
    variable: &Variable,
    a: u32,
    z: u32,
    parts: &mut Parts,
) -> Result<(), Stop>
    ensures made { OnOk result (parts.new ≡ after (clear variable.now around.now a z) parts.old) }
    ensures err { IfErr result (λ stop. IsStop stop (after (clear variable.now around.now a z) parts.old)) }
{
    let all = Operation::Clear {
        array: array_of(variable.place),
        length: length_of(variable.length),
    };
    let writes = one_name(alloc, &variable.name)?;
    step(around, all, writes, Vector::new(alloc), a, z, parts)
}

/// An array that is declared.
#[tactic(auto, using(crate::proofs::RowLaws::array_laws))]
pub(crate) fn array(
    alloc: Global,
    around: &Around,
    a: u32,
    z: u32,
    variable: &Variable,
    list: &[TypedExpr],
    parts: &mut Parts,
) -> Result<(), Stop>
    ensures made { OnOk result (parts.new ≡ after (array_row variable.now (map value_of list.now) around.now a z) parts.old) }
    ensures err { IfErr result (λ stop. IsStop stop (after (array_row variable.now (map value_of list.now) around.now a z) parts.old)) }
{
    if list.is_empty() {
        return clear(alloc, around, variable, a, z, parts);
    }
    let n = new_node(around, around.span, parts)?;
    clear(alloc, around, variable, a, n, parts)?;
    elements(alloc, around, n, z, variable, list, parts)
}

/// A call whose result is put nowhere.
#[tactic(auto, using(crate::proofs::RowLaws::call_laws))]
pub(crate) fn call(
    alloc: Global,
    around: &Around,
    a: u32,
    z: u32,
    tree: &TypedCall,
    parts: &mut Parts,
) -> Result<(), Stop>
    ensures made { OnOk result (parts.new ≡ after (call_row (calling_of tree.now) around.now a z) parts.old) }
    ensures err { IfErr result (λ stop. IsStop stop (after (call_row (calling_of tree.now) around.now a z) parts.old)) }
{
    let (end, operands) = words(alloc, around, a, &tree.words, parts)?;
    call_edges(
        alloc,
        around,
        tree.callee,
        &tree.arrays,
        operands,
        None,
        end,
        z,
        parts,
    )
}

/// `return`, which leads to the exit wherever its statement leads.
#[tactic(auto, using(crate::proofs::RowLaws::return_laws))]
pub(crate) fn leave(
    alloc: Global,
    around: &Around,
    a: u32,
    tree: &Option<TypedExpr>,
    parts: &mut Parts,
) -> Result<(), Stop>
    ensures made { OnOk result (parts.new ≡ after (return_row (option_map value_of tree.now) around.now a 0) parts.old) }
    ensures err { IfErr result (λ stop. IsStop stop (after (return_row (option_map value_of tree.now) around.now a 0) parts.old)) }
{
    match tree {
        None => skip(alloc, around, a, around.exit, parts),
        Some(tree) => {
            let (end, operand) = value(alloc, around, a, tree, parts)?;
            let Operand { value, reads } = operand;
            let put = Operation::Assign {
                place: CellPlace::Local(0),
                value,
            };
            step(
                around,
                put,
                Vector::new(alloc),
                reads,
                end,
                around.exit,
                parts,
            )
        }
    }
}

/// `assert`.
#[tactic(auto, using(crate::proofs::RowLaws::assert_laws))]
pub(crate) fn assertion(
    alloc: Global,
    around: &Around,
    a: u32,
    z: u32,
    tree: &TypedExpr,
    parts: &mut Parts,
) -> Result<(), Stop>
    ensures made { OnOk result (parts.new ≡ after (test_row operations.Assert (value_of tree.now) around.now a z) parts.old) }
    ensures err { IfErr result (λ stop. IsStop stop (after (test_row operations.Assert (value_of tree.now) around.now a z) parts.old)) }
{
    let (end, operand) = value(alloc, around, a, tree, parts)?;
    let Operand { value, reads } = operand;
    step(
        around,
        Operation::Assert(value),
        Vector::new(alloc),
        reads,
        end,
        z,
        parts,
    )
}

/// `assume`.
#[tactic(auto, using(crate::proofs::RowLaws::assume_laws))]
pub(crate) fn assuming(
    alloc: Global,
    around: &Around,
    a: u32,
    z: u32,
    tree: &TypedExpr,
    parts: &mut Parts,
) -> Result<(), Stop>
    ensures made { OnOk result (parts.new ≡ after (test_row operations.Assume (value_of tree.now) around.now a z) parts.old) }
    ensures err { IfErr result (λ stop. IsStop stop (after (test_row operations.Assume (value_of tree.now) around.now a z) parts.old)) }
{
    let (end, operand) = value(alloc, around, a, tree, parts)?;
    let Operand { value, reads } = operand;
    step(
        around,
        Operation::Assume(value),
        Vector::new(alloc),
        reads,
        end,
        z,
        parts,
    )
}
