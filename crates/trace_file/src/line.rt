// A line of a trace file.
ghost use Rattle.std.specs.Prelude.{◌≡◌, IfOk, map};
ghost use Rattle.trace_file.specs.Form.{answers_in, arguments_in, input_in, line_in, line_of_parts};

use crate::numbers::{edges_of, words_in};
use crate::parts::{cut_at, is_text, parts_of};
use c_meaning::Input;
use containers::Vector;
use std::alloc::{AllocError, Global};

/// What a line says: an input, and the edges of a run.
#[derive(Drop)]
pub struct Line {
    pub input: Input,
    pub edges: Vector<u32>,
}

// `args` and so many arguments.
fn arguments_in(
    alloc: Global,
    parts: &[&[u8]],
    parameters: usize,
) -> Result<Option<Vector<u64>>, AllocError>
    ensures { IfOk result (λ words. words ≡ arguments_in parameters (map (λ part. part.now) parts.now)) }
{
    match parts {
        [first, texts @ ..] if is_text(first, b"args") && texts.len() == parameters => {
            words_in(alloc, texts)
        }
        _ => Ok(None),
    }
}

// Answers, of which there is one at least.
fn answers_in(alloc: Global, parts: &[&[u8]]) -> Result<Option<Vector<u64>>, AllocError>
    ensures { IfOk result (λ words. words ≡ answers_in (map (λ part. part.now) parts.now)) }
{
    match parts {
        [] => Ok(None),
        _ => words_in(alloc, parts),
    }
}

// The arguments, and the answers where there are any.
fn input_in(alloc: Global, parts: &[&[u8]], parameters: usize) -> Result<Option<Input>, AllocError>
    ensures { IfOk result (λ input. input ≡ input_in parameters (map (λ part. part.now) parts.now)) }
{
    let (words, answers) = match cut_at(b"answers", parts) {
        None => (
            arguments_in(alloc, parts, parameters)?,
            Some(Vector::new(alloc)),
        ),
        Some((front, back)) => (
            arguments_in(alloc, front, parameters)?,
            answers_in(alloc, back)?,
        ),
    };
    match (words, answers) {
        (Some(words), Some(answers)) => Ok(Some(Input { words, answers })),
        _ => Ok(None),
    }
}

// The line of these parts.
fn line_of_parts(
    alloc: Global,
    parts: &[&[u8]],
    parameters: usize,
) -> Result<Option<Line>, AllocError>
    ensures { IfOk result (λ line. line ≡ line_of_parts parameters (map (λ part. part.now) parts.now)) }
{
    let Some((front, back)) = cut_at(b"edges", parts) else {
        return Ok(None);
    };
    let Some(input) = input_in(alloc, front, parameters)? else {
        return Ok(None);
    };
    let Some(edges) = edges_of(alloc, back)? else {
        return Ok(None);
    };
    Ok(Some(Line { input, edges }))
}

/// What a line says, with an argument for each of so many parameters, or `None` where it has another form.
pub(crate) fn line_in(
    alloc: Global,
    text: &[u8],
    parameters: usize,
) -> Result<Option<Line>, AllocError>
    ensures { IfOk result (λ line. line ≡ line_in parameters text.now) }
{
    let parts = parts_of(alloc, text)?;
    line_of_parts(alloc, parts.as_slice(), parameters)
}
