// The typing of the variables and enumeration constants of a file.
ghost use Rattle.std.specs.Prelude.{◌≡◌, ◌+◌, ◌++◌, nat_le, IfOk, OnOk};
ghost use Rattle.c_type_rules.specs.Rule.{after, made_by};
ghost use Rattle.c_types.specs.Declarations.{begun_global, constant_rule, constants_from, enumerated, first_value, first_values, global_rule, globals_rule, next_value, with_zeros};

use crate::declarations::{bind_variable, cells_of, is_list_for, length_at, unused};
use c_parse::{Declarator, ExprTree, Ident, Initial};
use c_type_rules::{Bound, Meaning, Typer};
use c_typed_trees::Global as GlobalVariable;
use c_values::{Kind, add, is_value};
use cfa::{Variable, VariablePlace};
use containers::{TryClone, Vector};
use std::alloc::{AllocError, Global};

// The first value of a cell.
#[tactic(auto, using(crate::proofs::GlobalLaws::first_laws))]
fn first_value(
    typer: &mut Typer,
    alloc: Global,
    kind: Kind,
    tree: &ExprTree,
) -> Result<u64, AllocError>
    ensures made { IfOk result (λ v. v ≡ made_by (first_value kind tree.now) typer.old) }
    ensures state { OnOk result (typer.new ≡ after (first_value kind tree.now) typer.old) }
{
    match typer.constant(alloc, Some(kind), tree)? {
        None => Ok(0),
        Some(value) => Ok(value),
    }
}

// The first values of a list.
fn first_values(
    typer: &mut Typer,
    alloc: Global,
    kind: Kind,
    trees: &[ExprTree],
) -> Result<Vector<u64>, AllocError>
    ensures made { IfOk result (λ list. list ≡ made_by (first_values kind trees.now) typer.old) }
    ensures state { OnOk result (typer.new ≡ after (first_values kind trees.now) typer.old) }
{
    let mut list = Vector::new(alloc);
    for tree in trees {
        list.push(first_value(typer, alloc, kind, tree)?)?;
    }
    Ok(list)
}

// Values, and zeros behind them.
fn with_zeros(length: u32, list: Vector<u64>) -> Result<Vector<u64>, AllocError>
    ensures { IfOk result (λ all. all ≡ with_zeros length list) }
{
    let mut list = list;
    'pad: while list.len() < length as usize {
        list.push(0)?;
    }
    Ok(list)
}

// The first value of each cell of a variable.
#[tactic(auto, using(crate::proofs::GlobalLaws::begun_laws))]
fn begun_global(
    typer: &mut Typer,
    alloc: Global,
    name: &Ident,
    kind: Kind,
    length: Option<u32>,
    first: &Option<Initial>,
) -> Result<Vector<u64>, AllocError>
    ensures made { IfOk result (λ list. list ≡ made_by (begun_global name.now kind length first.now) typer.old) }
    ensures state { OnOk result (typer.new ≡ after (begun_global name.now kind length first.now) typer.old) }
{
    let mut values = Vector::new(alloc);
    match (length, first) {
        (None, None) => {
            values.push(0)?;
            Ok(values)
        }
        (None, Some(Initial::One(tree))) => {
            values.push(first_value(typer, alloc, kind, tree)?)?;
            Ok(values)
        }
        (None, Some(Initial::List(trees))) => {
            typer.fault(33, name.span);
            let _list = first_values(typer, alloc, kind, trees.as_slice())?;
            Ok(values)
        }
        (Some(length), None) => with_zeros(length, values),
        (Some(_), Some(Initial::One(tree))) => {
            typer.fault(33, name.span);
            let _value = first_value(typer, alloc, kind, tree)?;
            Ok(values)
        }
        (Some(length), Some(Initial::List(trees))) => {
            typer.expect(34, name.span, is_list_for(length, trees.len()));
            let list = first_values(typer, alloc, kind, trees.as_slice())?;
            with_zeros(length, list)
        }
    }
}

fn is_within(cell: u32, cells: u32) -> bool
    ensures { result ≡ nat_le (cell + cells) 16384 }
{
    cell <= 16384 && cells <= 16384 - cell
}

// The variable of a declarator.
#[tactic(auto, using(crate::proofs::GlobalLaws::global_laws))]
fn global(
    typer: &mut Typer,
    alloc: Global,
    kind: Kind,
    declarator: &Declarator,
) -> Result<GlobalVariable, AllocError>
    ensures made { IfOk result (λ g. g ≡ made_by (global_rule kind declarator.now) typer.old) }
    ensures state { OnOk result (typer.new ≡ after (global_rule kind declarator.now) typer.old) }
{
    let name = &declarator.name;
    unused(typer, name);
    let length = length_at(typer, alloc, name.span, &declarator.length)?;
    let cells = cells_of(length);
    let cell = typer.new_local(cells)?;
    typer.expect(37, name.span, is_within(cell, cells));
    let variable = Variable {
        name: name.name.try_clone(alloc)?,
        kind,
        length,
        place: VariablePlace::Global(cell),
    };
    bind_variable(typer, alloc, &variable)?;
    let first = begun_global(typer, alloc, name, kind, length, &declarator.first)?;
    Ok(GlobalVariable { variable, first })
}

/// The variables of a declaration outside of all functions.
pub(crate) fn globals(
    typer: &mut Typer,
    alloc: Global,
    kind: Kind,
    list: &[Declarator],
    out: &mut Vector<GlobalVariable>,
) -> Result<(), AllocError>
    ensures made { OnOk result (out.new ≡ out.old ++ made_by (globals_rule kind list.now) typer.old) }
    ensures state { OnOk result (typer.new ≡ after (globals_rule kind list.now) typer.old) }
{
    for declarator in list {
        out.push(global(typer, alloc, kind, declarator)?)?;
    }
    Ok(())
}

// One more than a value, as an int.
#[tactic(auto, using(crate::proofs::GlobalLaws::one_is_int))]
fn next_value(value: u64) -> u64
    ensures { result ≡ next_value value }
{
    if is_value(value, Kind::INT) {
        add(value, 1, Kind::INT)
    } else {
        0
    }
}

// The value of an enumeration constant, from the one that comes next.
#[tactic(auto, using(crate::proofs::GlobalLaws::enumerated_laws))]
fn enumerated(
    typer: &mut Typer,
    alloc: Global,
    next: u64,
    value: &Option<ExprTree>,
) -> Result<u64, AllocError>
    ensures made { IfOk result (λ v. v ≡ made_by (enumerated next value.now) typer.old) }
    ensures state { OnOk result (typer.new ≡ after (enumerated next value.now) typer.old) }
{
    match value {
        None => Ok(next),
        Some(tree) => first_value(typer, alloc, Kind::INT, tree),
    }
}

// An enumeration constant; it answers the value after its own.
#[tactic(auto, using(crate::proofs::GlobalLaws::constant_laws))]
fn constant(
    typer: &mut Typer,
    alloc: Global,
    next: u64,
    constant: &(Ident, Option<ExprTree>),
) -> Result<u64, AllocError>
    ensures made { IfOk result (λ v. v ≡ made_by (constant_rule next constant.now) typer.old) }
    ensures state { OnOk result (typer.new ≡ after (constant_rule next constant.now) typer.old) }
{
    let (name, value) = constant;
    let value = enumerated(typer, alloc, next, value)?;
    unused(typer, name);
    let level = typer.level;
    typer.bind(Bound {
        name: name.name.try_clone(alloc)?,
        level,
        meaning: Meaning::Constant(value),
    })?;
    Ok(next_value(value))
}

/// The constants of an `enum`.
pub(crate) fn constants(
    typer: &mut Typer,
    alloc: Global,
    list: &[(Ident, Option<ExprTree>)],
) -> Result<(), AllocError>
    ensures { OnOk result (typer.new ≡ after (constants_from 0 list.now) typer.old) }
{
    let mut next = 0;
    for one in list {
        next = constant(typer, alloc, next, one)?;
    }
    Ok(())
}
