// The formula of a literal of an unwinding's circuit, with the variables of the input bits.
ghost use Rattle.std.specs.Prelude.{◌≡◌, ◌+◌, ◌*◌, ◌≤◌, ◌^◌, IfOk, length, map, replicate, take, drop};
ghost use Rattle.std.specs.List.{flat_map};
ghost use Rattle.c_values.specs.declared.kinds.Kind.{Kind as OneKind};
ghost use Rattle.circuit.specs.Wires.{IsWire, input_count};
ghost use Rattle.unwinder.specs.input_words.Worlds.{total_width, world_length};
ghost use Rattle.goal_formula.specs.Forms.{IsFormulaOf};
ghost use Rattle.goal_formula.specs.Parts.{AreInputVariables};

use crate::goal::GoalFormula;
use c_values::Kind;
use circuit::{Circuit, Gate, Lit};
use clause_form::clause_form;
use containers::Vector;
use fq_core::Memory;
use std::alloc::{AllocError, Global};

/// The variables of a circuit's inputs, in their order.
fn input_variables(
    alloc: Global,
    circuit: &Circuit,
    variable: &[Option<u32>],
) -> Result<Vec<Option<u32>>, AllocError>
    requires { length variable.now ≡ length circuit.now }
    ensures { IfOk result (λ bits. AreInputVariables circuit.now variable.now (length circuit.now) bits.items) }
{
    let mut bits = Vec::new(alloc);
    for place in 0..circuit.wires() {
        if let Gate::Input { .. } = circuit.gate(place + 1) {
            bits.push(variable[place as usize])?;
        }
    }
    Ok(bits)
}

/// So many of these, from a place on.
fn row(
    alloc: Global,
    bits: &[Option<u32>],
    from: usize,
    width: usize,
) -> Result<Vector<Option<u32>>, AllocError>
    requires { from + width ≤ length bits.now }
    ensures { IfOk result (λ row. row ≡ take width (drop from bits.now)) }
{
    let row = Vec::from_slice(alloc, &bits[from..from + width])?;
    Ok(Vector::from_vec(row))
}

/// A row for each parameter, as long as it has bits, from the first on.
fn word_rows(
    alloc: Global,
    bits: &[Option<u32>],
    parameters: &[Kind],
) -> Result<Vector<Vector<Option<u32>>>, AllocError>
    requires { total_width parameters.now ≤ length bits.now }
    ensures widths { IfOk result (λ rows. map length rows ≡ map (λ (kind : OneKind). kind.width) parameters.now) }
    ensures bits { IfOk result (λ rows. flat_map (λ row. row) rows ≡ take (total_width parameters.now) bits.now) }
{
    let mut rows = Vector::new(alloc);
    let mut from = 0;
    for kind in parameters {
        let width = kind.width as usize;
        rows.push(row(alloc, bits, from, width)?)?;
        from += width;
    }
    Ok(rows)
}

/// So many rows of 64 bits, from a place on.
fn answer_rows(
    alloc: Global,
    bits: &[Option<u32>],
    from: usize,
    answers: u32,
) -> Result<Vector<Vector<Option<u32>>>, AllocError>
    requires { from + 64 * answers ≤ length bits.now }
    ensures widths { IfOk result (λ rows. map length rows ≡ replicate answers 64) }
    ensures bits { IfOk result (λ rows. flat_map (λ row. row) rows ≡ take (64 * answers) (drop from bits.now)) }
{
    let mut rows = Vector::new(alloc);
    for number in 0..answers {
        rows.push(row(alloc, bits, from + 64 * number as usize, 64)?)?;
    }
    Ok(rows)
}

/// The formula that says that a literal holds, of a circuit whose inputs are the bits of a function's inputs: those of its
/// arguments, and 64 for each of so many answers. It is the clause form of the literal's cone, with the variable of each
/// input bit.
///
/// The circuit is that of an unwinding, or one that grew from it by gates that aren't inputs: so a caller adds the gates of
/// what it asks, takes the formula of their literal, and cuts them off again. An unwinding has at most 256 answers. Want of
/// memory is the only other answer. Takes time and memory in proportion to the literal's cone, and to a table of all wires.
pub fn literal_formula(
    alloc: Global,
    circuit: &Circuit,
    literal: Lit,
    parameters: &[Kind],
    answers: u32,
) -> Result<GoalFormula, Memory>
    requires literal { IsWire circuit.now literal }
    requires few { length circuit.now ≤ 2 ^ 30 }
    requires inputs { input_count circuit.now ≡ world_length parameters.now answers }
    requires answers { answers ≤ 256 }
    ensures { IfOk result (IsFormulaOf circuit.now literal parameters.now answers) }
{
    let form = clause_form(alloc, circuit, literal)?;
    let bits = input_variables(alloc, circuit, &form.variable)?;
    let words = word_rows(alloc, &bits, parameters)?;
    let from = bits.len() - 64 * answers as usize;
    let answers = answer_rows(alloc, &bits, from, answers)?;
    Ok(GoalFormula {
        formula: form.formula,
        variable: form.variable,
        words,
        answers,
    })
}
