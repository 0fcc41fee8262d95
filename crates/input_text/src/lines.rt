// The inputs that a text gives, one on a line.
ghost use Rattle.std.specs.Prelude.{◌≡◌, ◌==◌, ◌+◌, ◌<◌, ◌≤◌, ℕ, List, [], ◌∷◌, OnOk, IfErr, IfOk, IfSome, Err, Ok, length, map, position, vec_len};
ghost use Rattle.std.specs.List.{list_any, slice_split};
ghost use Rattle.std.specs.Option.{option_map_or};
ghost use Rattle.fq_core.specs.Word.{word_of_text};
ghost use Rattle.input_text.specs.Lines.{is_blank, is_no_number, line_input, line_parts, lines_of, misfit_in, parts_of_lines, texts_in, words_in};
ghost use Rattle.fq_core.specs.Refusals.{IfRefused};
ghost use Rattle.input_text.specs.Outcome.{after, most_inputs, numbered};

use crate::misfit::Misfit;
use crate::parts::add;
use c_meaning::Input;
use containers::Vector;
use fq_core::{Fault, WordText, word_of};
use std::alloc::{AllocError, Global};

fn line_feed(text: &[u8]) -> Option<usize>
    ensures { result ≡ position (λ byte. byte == 10) text.now }
{
    text.iter().position(|byte| *byte == b'\n')
}

// The line at the front of a text, and what follows its line feed, where it has one.
fn first_line(text: &[u8]) -> (&[u8], Option<&[u8]>)
    ensures lines { lines_of text.now ≡ result.0.now ∷ option_map_or (λ rest. lines_of rest.now) result.1 [] }
    ensures shorter { IfSome result.1 (λ rest. length rest.now < length text.now) }
{
    match line_feed(text) {
        Some(place) => (&text[..place], Some(&text[place + 1..])),
        None => (text, None),
    }
}

fn is_blank(byte: u8) -> bool
    ensures { result ≡ is_blank byte }
{
    matches!(byte, b' ' | b'\t' | b'\r')
}

fn blank(line: &[u8]) -> Option<usize>
    ensures { result ≡ position is_blank line.now }
{
    line.iter().position(|byte| is_blank(*byte))
}

// What stands in a line before its first blank, and what follows that, where it has one.
fn first_text(line: &[u8]) -> (&[u8], Option<&[u8]>)
    ensures parts { slice_split is_blank line.now ≡ result.0.now ∷ option_map_or (λ rest. slice_split is_blank rest.now) result.1 [] }
    ensures shorter { IfSome result.1 (λ rest. length rest.now < length line.now) }
{
    match blank(line) {
        Some(place) => (&line[..place], Some(&line[place + 1..])),
        None => (line, None),
    }
}

// The texts between the blanks of a line.
fn texts(alloc: Global, line: &[u8]) -> Result<Vec<&[u8]>, AllocError>
    ensures { IfOk result (λ texts. map (λ text. text.now) texts.items ≡ texts_in line.now) }
{
    let mut texts = Vec::new(alloc);
    let mut left = Some(line);
    while let Some(part) = left {
        let (text, rest) = first_text(part);
        if text.len() > 0 {
            texts.push(text)?;
        }
        left = rest;
    }
    Ok(texts)
}

// The words that texts write, or `None` where one of them writes none.
fn words(alloc: Global, texts: &[&[u8]]) -> Result<Option<Vector<u64>>, AllocError>
    ensures { IfOk result (λ words. words ≡ words_in (map (λ text. text.now) texts.now)) }
{
    let mut words = Vector::new(alloc);
    for text in texts {
        match word_of(text) {
            WordText::Number(value) => words.push(value)?,
            _ => return Ok(None),
        }
    }
    Ok(Some(words))
}

fn is_no_number(text: &[u8]) -> bool
    ensures { result ≡ is_no_number (word_of_text text.now) }
{
    match word_of(text) {
        WordText::NotNumber => true,
        _ => false,
    }
}

fn any_is_no_number(texts: &[&[u8]]) -> bool
    ensures { result ≡ list_any (λ text. is_no_number (word_of_text text.now)) texts.now }
{
    texts.iter().any(|text| is_no_number(text))
}

// What is wrong with texts of which some write no word.
fn misfit(texts: &[&[u8]]) -> Misfit
    ensures { result ≡ misfit_in (map (λ text. text.now) texts.now) }
{
    if any_is_no_number(texts) {
        Misfit::Shape
    } else {
        Misfit::Range
    }
}

// What a line that has these texts gives.
fn input(
    alloc: Global,
    texts: &[&[u8]],
    parameters: u32,
) -> Result<Result<Input, Misfit>, AllocError>
    ensures { IfOk result (λ part. part ≡ line_input parameters (map (λ text. text.now) texts.now)) }
{
    if texts.len() != parameters as usize {
        return Ok(Err(Misfit::Shape));
    }
    match words(alloc, texts)? {
        Some(words) => Ok(Ok(Input {
            words,
            answers: Vector::new(alloc),
        })),
        None => Ok(Err(misfit(texts))),
    }
}

// Adds what a line gives to the inputs before it, where the line isn't blank.
fn add_line(
    alloc: Global,
    inputs: &mut Vec<Input>,
    line: &[u8],
    parameters: u32,
) -> Result<(), Fault>
    requires { vec_len inputs.old ≤ most_inputs }
    ensures few { vec_len inputs.new ≤ most_inputs }
    ensures added { OnOk result ((lines : List (List ℕ)) → after inputs.old.items (numbered (vec_len inputs.old + 1) (parts_of_lines parameters (line.now ∷ lines))) ≡ after inputs.new.items (numbered (vec_len inputs.new + 1) (parts_of_lines parameters lines))) }
    ensures refused { IfErr result (λ fault. IfRefused fault (λ refusal. (lines : List (List ℕ)) → numbered (vec_len inputs.old + 1) (parts_of_lines parameters (line.now ∷ lines)) ≡ Err refusal)) }
{
    let texts = texts(alloc, line)?;
    let row = texts.as_slice();
    if row.len() == 0 {
        return Ok(());
    }
    add(inputs, input(alloc, row, parameters)?)
}

/// The inputs of a text that has a line for each, its arguments parted by spaces, tabs and carriage returns, or the refusal
/// of the first that is wrong. Lines with nothing else than blanks are passed over.
pub fn inputs_in_lines(alloc: Global, bytes: &[u8], parameters: u32) -> Result<Vec<Input>, Fault>
    ensures ok { IfOk result (λ inputs. numbered 1 (line_parts parameters bytes.now) ≡ Ok inputs.items) }
    ensures refused { IfErr result (λ fault. IfRefused fault (λ refusal. numbered 1 (line_parts parameters bytes.now) ≡ Err refusal)) }
{
    let mut inputs = Vec::new(alloc);
    let mut left = Some(bytes);
    while let Some(part) = left {
        let (line, rest) = first_line(part);
        add_line(alloc, &mut inputs, line, parameters)?;
        left = rest;
    }
    Ok(inputs)
}
