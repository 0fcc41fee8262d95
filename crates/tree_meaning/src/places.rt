// Places of variables among the cells.
ghost use Rattle.std.specs.Prelude.{◌≡◌, ◌<◌, ◌^◌};
ghost use Rattle.c_values.specs.Kind.{IsValue};
ghost use Rattle.tree_meaning.specs.Activations.{start_of, length_of, element_at};

use crate::activation::Activation;
use c_values::Kind;
use cfa::{Trap, Variable, VariablePlace};

/// The place of a variable's first cell.
pub(crate) fn start_of(activation: &Activation, place: VariablePlace) -> usize
    ensures start { result ≡ start_of activation.now place }
    ensures small { result < 2 ^ 33 }
{
    match place {
        VariablePlace::Global(first) => first as usize,
        VariablePlace::Local(first) => activation.base as usize + first as usize,
        VariablePlace::Lent(parameter) => {
            let arrays = activation.arrays.as_slice();
            let start = arrays.get(parameter as usize).copied().unwrap_or(0);
            start as usize
        }
    }
}

/// How many elements a variable has, 0 for an integer.
pub(crate) fn length_of(length: Option<u32>) -> u32
    ensures { result ≡ length_of length }
{
    match length {
        None => 0,
        Some(length) => length,
    }
}

/// The place of an array's element, or the trap of its index.
pub(crate) fn element_at(
    activation: &Activation,
    variable: &Variable,
    kind: Kind,
    index: u64,
) -> Result<usize, Trap>
    requires { IsValue kind index }
    ensures { result ≡ element_at activation.now variable.now kind index }
{
    if index < length_of(variable.length) as u64 {
        Ok(start_of(activation, variable.place) + index as usize)
    } else {
        Err(Trap::Index)
    }
}
