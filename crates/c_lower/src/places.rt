// Places of variables as cells and arrays.
ghost use Rattle.std.specs.Prelude.{◌≡◌, IfOk};
ghost use Rattle.c_lower_rules.specs.graph_of.Expressions.{array_of, cell_of, length_of, element_of};

use c_values::Kind;
use cfa::{ArrayPlace, CellPlace, Expr, Variable, VariablePlace};
use containers::Boxed;
use std::alloc::{AllocError, Global};

/// Where an array begins.
pub(crate) fn array_of(place: VariablePlace) -> ArrayPlace
    ensures { result ≡ array_of place }
{
    match place {
        VariablePlace::Global(first) => ArrayPlace::Global(first),
        VariablePlace::Local(first) => ArrayPlace::Local(first),
        VariablePlace::Lent(parameter) => ArrayPlace::Lent(parameter),
    }
}

/// The cell of an integer.
pub(crate) fn cell_of(alloc: Global, place: VariablePlace) -> Result<CellPlace, AllocError>
    ensures { IfOk result (λ cell. cell ≡ cell_of place) }
{
    match place {
        VariablePlace::Global(cell) => Ok(CellPlace::Global(cell)),
        VariablePlace::Local(cell) => Ok(CellPlace::Local(cell)),
        VariablePlace::Lent(parameter) => Ok(CellPlace::Element {
            array: ArrayPlace::Lent(parameter),
            index: Boxed::new(alloc, Expr::Constant(0, Kind::INT))?,
            length: 0,
        }),
    }
}

/// How many elements a variable has, 0 for an integer.
pub(crate) fn length_of(length: Option<u32>) -> u32
    ensures { result ≡ length_of length }
{
    match length {
        None => 0,
        Some(length) => length,
    }
}

/// An element of an array.
pub(crate) fn element_of(
    alloc: Global,
    variable: &Variable,
    index: Expr,
) -> Result<CellPlace, AllocError>
    ensures { IfOk result (λ cell. cell ≡ element_of variable.now index) }
{
    Ok(CellPlace::Element {
        array: array_of(variable.place),
        index: Boxed::new(alloc, index)?,
        length: length_of(variable.length),
    })
}
