// The variables of input bits, in the order in which the bits decide.
ghost use Rattle.std.specs.Prelude.{◌≡◌, ◌++◌, IfOk, OnOk, reverse};
ghost use Rattle.std.specs.List.{filter_map, flat_map};
ghost use Rattle.least_input.specs.Fixing.{variables_in_order};

use containers::Vector;
use goal_formula::GoalFormula;
use std::alloc::{AllocError, Global};

/// Adds the variables of a row of bits, from its last on.
fn add_row(variables: &mut Vec<u32>, row: &[Option<u32>]) -> Result<(), AllocError>
    ensures { OnOk result (variables.new.items
        ≡ variables.old.items ++ filter_map (λ v. v) (reverse row.now)) }
{
    for place in (0..row.len()).rev() {
        if let Some(number) = row[place] {
            variables.push(number)?;
        }
    }
    Ok(())
}

/// Adds the variables of rows of bits, each from its last on.
fn add_rows(variables: &mut Vec<u32>, rows: &[Vector<Option<u32>>]) -> Result<(), AllocError>
    ensures { OnOk result (variables.new.items
        ≡ variables.old.items ++ filter_map (λ v. v) (flat_map reverse rows.now)) }
{
    for row in rows {
        add_row(variables, row)?;
    }
    Ok(())
}

/// The variables of the input bits that have one, in the order in which the bits decide which of two inputs is less: from the
/// first word's highest bit on, the words before the answers.
pub(crate) fn variables_in_order(
    alloc: Global,
    formula: &GoalFormula,
) -> Result<Vec<u32>, AllocError>
    ensures { IfOk result (λ variables. variables.items ≡ variables_in_order formula.now) }
{
    let mut variables = Vec::new(alloc);
    add_rows(&mut variables, &formula.words)?;
    add_rows(&mut variables, &formula.answers)?;
    Ok(variables)
}
