// The values that expressions give, with the names that they are read from.
ghost use Rattle.std.specs.Prelude.{◌≡◌, ◌++◌, ◌∷◌, map, IfOk};
ghost use Rattle.std.specs.List.{flat_map};
ghost use Rattle.c_lower_rules.specs.declared.graph_of.parts.Operand.{Operand as OneOperand};
ghost use Rattle.c_lower.specs.Operands.{constant_operand, temporary_operand, loaded_operand, converted_operand, unary_operand, binary_operand};

use c_lower_rules::graph_of::{Operand, Target};
use c_values::{BinaryOp, Kind, UnaryOp};
use cfa::{CellPlace, Expr};
use containers::{Boxed, TryClone, Vector};
use fq_core::Name;
use std::alloc::{AllocError, Global};

/// Names, and then others.
pub(crate) fn joined(names: Vector<Name>, more: Vector<Name>) -> Result<Vector<Name>, AllocError>
    ensures { IfOk result (λ all. all ≡ names ++ more) }
{
    let mut all = names;
    for name in more.into_vec() {
        all.push(name)?;
    }
    Ok(all)
}

/// A name, and then others.
pub(crate) fn with_name(
    alloc: Global,
    name: &Name,
    more: Vector<Name>,
) -> Result<Vector<Name>, AllocError>
    ensures { IfOk result (λ all. all ≡ name.now ∷ more) }
{
    let mut all = Vector::new(alloc);
    all.push(name.try_clone(alloc)?)?;
    joined(all, more)
}

/// The values of operands, and all names that they are read from.
pub(crate) fn split_operands(
    alloc: Global,
    operands: Vector<Operand>,
) -> Result<(Vector<Expr>, Vector<Name>), AllocError>
    ensures values { IfOk result (λ r. r.0 ≡ map (λ (w : OneOperand). w.value) operands) }
    ensures reads { IfOk result (λ r. r.1 ≡ flat_map (λ (w : OneOperand). w.reads) operands) }
{
    let mut values = Vector::new(alloc);
    let mut names = Vector::new(alloc);
    for operand in operands.into_vec() {
        let Operand { value, reads } = operand;
        values.push(value)?;
        names = joined(names, reads)?;
    }
    Ok((values, names))
}

pub(crate) fn constant(alloc: Global, value: u64, kind: Kind) -> Operand
    ensures { result ≡ constant_operand value kind }
{
    Operand {
        value: Expr::Constant(value, kind),
        reads: Vector::new(alloc),
    }
}

/// What a cell of the frame holds that has no name.
pub(crate) fn temporary(alloc: Global, cell: u32, kind: Kind) -> Operand
    ensures { result ≡ temporary_operand cell kind }
{
    Operand {
        value: Expr::Load(CellPlace::Local(cell), kind),
        reads: Vector::new(alloc),
    }
}

pub(crate) fn loaded(
    alloc: Global,
    name: &Name,
    target: Target,
    kind: Kind,
) -> Result<Operand, AllocError>
    ensures { IfOk result (λ v. v ≡ loaded_operand name.now kind target) }
{
    let Target { place, reads } = target;
    Ok(Operand {
        value: Expr::Load(place, kind),
        reads: with_name(alloc, name, reads)?,
    })
}

pub(crate) fn converted(alloc: Global, operand: Operand, kind: Kind) -> Result<Operand, AllocError>
    ensures { IfOk result (λ v. v ≡ converted_operand kind operand) }
{
    let Operand { value, reads } = operand;
    Ok(Operand {
        value: Expr::Convert(Boxed::new(alloc, value)?, kind),
        reads,
    })
}

pub(crate) fn unary(
    alloc: Global,
    op: UnaryOp,
    operand: Operand,
    kind: Kind,
) -> Result<Operand, AllocError>
    ensures { IfOk result (λ v. v ≡ unary_operand op kind operand) }
{
    let Operand { value, reads } = operand;
    Ok(Operand {
        value: Expr::Unary(op, Boxed::new(alloc, value)?, kind),
        reads,
    })
}

pub(crate) fn binary(
    alloc: Global,
    op: BinaryOp,
    left: Operand,
    right: Operand,
    kind: Kind,
) -> Result<Operand, AllocError>
    ensures { IfOk result (λ v. v ≡ binary_operand op kind left right) }
{
    let Operand {
        value: x,
        reads: of_x,
    } = left;
    let Operand {
        value: y,
        reads: of_y,
    } = right;
    Ok(Operand {
        value: Expr::Binary(op, Boxed::new(alloc, x)?, Boxed::new(alloc, y)?, kind),
        reads: joined(of_x, of_y)?,
    })
}
