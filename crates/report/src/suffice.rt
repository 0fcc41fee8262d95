// The lines that say whether bounds suffice.
ghost use Rattle.std.specs.Prelude.{◌≡◌, ◌++◌, IfOk, OnOk, length};
ghost use Rattle.std.specs.List.{flat_map};
ghost use Rattle.input_text.specs.Laws.{HasWords};
ghost use Rattle.report.specs.Ends.{spaced_value};
ghost use Rattle.report.specs.Made.{parameter_kinds};
ghost use Rattle.report.specs.Suffice.{left_answers_text, left_text, long, open_bounds_text, suffice_text};

use crate::ends::push_spaced_value;
use crate::generated::push_bounds;
use crate::made::{parameter_kinds, push_arguments};
use c_meaning::Input;
use c_values::Kind;
use cfa::Graph;
use fq_core::Memory;
use std::alloc::{AllocError, Global};
use unwinder_reach::reached::Bounds;

// Appends numbers, each after a space, as signed ones of 64 bits.
fn push_signed(text: &mut Vec<u8>, numbers: &[u64]) -> Result<(), AllocError>
    ensures { OnOk result (text.new.items ≡ text.old.items ++ flat_map (spaced_value long) numbers.now) }
{
    for number in numbers {
        push_spaced_value(text, Kind::LONG, *number)?;
    }
    Ok(())
}

// Appends answers, where there are any.
fn push_left_answers(text: &mut Vec<u8>, answers: &[u64]) -> Result<(), AllocError>
    ensures { OnOk result (text.new.items ≡ text.old.items ++ left_answers_text answers.now) }
{
    match answers {
        [] => Ok(()),
        [_first, ..] => {
            text.extend_from_slice(b" answers")?;
            push_signed(text, answers)?;
            Ok(())
        }
    }
}

/// The line that says that no input leaves these bounds on a loop's turns, on frames and on answers.
pub fn suffice_text(alloc: Global, bounds: Bounds) -> Result<Vec<u8>, Memory>
    ensures { IfOk result (λ text. text.items ≡ suffice_text bounds) }
{
    let mut text = Vec::from_slice(alloc, b"bounds suffice")?;
    push_bounds(&mut text, bounds)?;
    text.extend_from_slice(b"\n")?;
    Ok(text)
}

/// The line of an input to the function of the number `entry` that leaves bounds: its arguments, and its answers as signed
/// numbers of 64 bits where there are any. The input has one word for each parameter.
pub fn left_text(alloc: Global, graph: &Graph, entry: u32, input: &Input) -> Result<Vec<u8>, Memory>
    requires { HasWords (length (parameter_kinds graph.now entry)) input.now }
    ensures { IfOk result (λ text. text.items ≡ left_text graph.now entry input.now) }
{
    let mut text = Vec::from_slice(alloc, b"bounds left args")?;
    push_arguments(&mut text, &input.words, parameter_kinds(graph, entry))?;
    push_left_answers(&mut text, &input.answers)?;
    text.extend_from_slice(b"\n")?;
    Ok(text)
}

/// The line that says that it is left open whether bounds suffice.
pub fn open_bounds_text(alloc: Global) -> Result<Vec<u8>, Memory>
    ensures { IfOk result (λ text. text.items ≡ open_bounds_text) }
{
    Ok(Vec::from_slice(alloc, b"bounds open\n")?)
}
