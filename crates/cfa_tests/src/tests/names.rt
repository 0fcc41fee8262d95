// What names stand for among variables.
use c_values::Kind;
use cfa::*;
use fq_core::{Memory, Name};
use std::alloc::Global;
use std::fmt::Write;

fn name(alloc: Global, number: u32) -> Result<Name, Memory> {
    let mut text = String::new(alloc);
    if write!(text, "v{number}").is_err() {
        return Err(Memory);
    }
    Name::new(alloc, text.as_bytes())
}

// So many variables, each before all of those with lesser cells, where their names come again behind so many.
pub(crate) fn row(alloc: Global, count: u32, names: u32) -> Result<Variables, Memory> {
    let mut variables = Variables::new();
    for cell in 0..count {
        let variable = Variable {
            name: name(alloc, cell.checked_rem(names).unwrap_or(cell))?,
            kind: Kind::INT,
            length: None,
            place: VariablePlace::Local(cell),
        };
        variables = Variables::with(alloc, variable, variables)?;
    }
    Ok(variables)
}

// The cell that a name stands for.
pub(crate) fn cell_of(alloc: Global, variables: &Variables, number: u32) -> Option<u32> {
    let Ok(name) = name(alloc, number) else {
        return None;
    };
    match variables.find(&name)?.place {
        VariablePlace::Local(cell) => Some(cell),
        VariablePlace::Global(_) | VariablePlace::Lent(_) => None,
    }
}
