// Inputs that were made.
ghost use Rattle.std.specs.Prelude.{◌≡◌, ◌++◌, OnOk, length};
ghost use Rattle.std.specs.List.{All, flat_map};
ghost use Rattle.input_text.specs.Laws.{HasWords};
ghost use Rattle.report.specs.Ends.{spaced_value};
ghost use Rattle.report.specs.Made.{arguments_text, made_line, made_lines, made_text, parameter_kinds, taken_text};

use crate::ends::push_spaced_value;
use crate::numbers::push_number;
use c_meaning::Input;
use c_values::Kind;
use cfa::Graph;
use containers::Vector;
use std::alloc::AllocError;

/// The kinds of a function's parameters.
pub fn parameter_kinds(graph: &Graph, entry: u32) -> &[Kind]
    ensures { result.now ≡ parameter_kinds graph.now entry }
{
    match graph.functions().get(entry as usize) {
        Some(function) => function.parameters.as_slice(),
        None => &[],
    }
}

/// Appends arguments, each as a value of its parameter's kind.
pub fn push_arguments(text: &mut Vec<u8>, words: &[u64], kinds: &[Kind]) -> Result<(), AllocError>
    requires { length words.now ≡ length kinds.now }
    ensures { OnOk result (text.new.items ≡ text.old.items ++ arguments_text words.now kinds.now) }
{
    for place in 0..words.len() {
        push_spaced_value(text, kinds[place], words[place])?;
    }
    Ok(())
}

fn push_values(text: &mut Vec<u8>, values: &[(Kind, u64)]) -> Result<(), AllocError>
    ensures { OnOk result (text.new.items ≡ text.old.items ++ flat_map (λ value. spaced_value value.0 value.1) values.now) }
{
    for value in values {
        push_spaced_value(text, value.0, value.1)?;
    }
    Ok(())
}

fn push_taken(text: &mut Vec<u8>, taken: &[(Kind, u64)]) -> Result<(), AllocError>
    ensures { OnOk result (text.new.items ≡ text.old.items ++ taken_text taken.now) }
{
    match taken {
        [] => Ok(()),
        [_first, ..] => {
            text.extend_from_slice(b" answers")?;
            push_values(text, taken)?;
            Ok(())
        }
    }
}

/// Appends the arguments of an input, and the answers that its run takes.
pub fn push_made(
    text: &mut Vec<u8>,
    kinds: &[Kind],
    input: &Input,
    taken: &[(Kind, u64)],
) -> Result<(), AllocError>
    requires { HasWords (length kinds.now) input.now }
    ensures { OnOk result (text.new.items ≡ text.old.items ++ made_text kinds.now input.now taken.now) }
{
    text.extend_from_slice(b" args")?;
    push_arguments(text, &input.words, kinds)?;
    push_taken(text, taken)?;
    Ok(())
}

fn push_made_line(
    text: &mut Vec<u8>,
    kinds: &[Kind],
    number: usize,
    input: &Input,
    taken: &[(Kind, u64)],
) -> Result<(), AllocError>
    requires { HasWords (length kinds.now) input.now }
    ensures { OnOk result (text.new.items ≡ text.old.items ++ made_line kinds.now number input.now taken.now) }
{
    text.extend_from_slice(b"input ")?;
    push_number(text, number)?;
    push_made(text, kinds, input, taken)?;
    text.extend_from_slice(b"\n")?;
    Ok(())
}

/// Appends a line for each input, with the answers that its run takes.
pub fn push_made_lines(
    text: &mut Vec<u8>,
    kinds: &[Kind],
    inputs: &[Input],
    taken: &[Vector<(Kind, u64)>],
) -> Result<(), AllocError>
    requires words { All (HasWords (length kinds.now)) inputs.now }
    requires taken { length taken.now ≡ length inputs.now }
    ensures { OnOk result (text.new.items ≡ text.old.items ++ made_lines kinds.now 1 inputs.now taken.now) }
{
    for place in 0..inputs.len() {
        push_made_line(
            text,
            kinds,
            place + 1,
            &inputs[place],
            taken[place].as_slice(),
        )?;
    }
    Ok(())
}
