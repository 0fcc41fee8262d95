// The text of a trace file.
ghost use Rattle.std.specs.Prelude.{◌≡◌, ◌++◌, All, IfOk, IsTrue, OnOk, codes, length};
ghost use Rattle.std.specs.Fmt.{signed_decimal};
ghost use Rattle.std.specs.List.{flat_map, list_all};
ghost use Rattle.c_values.specs.Kind.{IsKind, is_kind, number_of};
ghost use Rattle.c_meaning.specs.Starts.{fitted};
ghost use Rattle.trace_file.specs.Written.{HasWords, answers_text, arguments_text, edges_text, spaced_value, trace_line, traces_text};

use crate::trace::Trace;
use c_values::{Kind, convert};
use fq_core::Memory;
use itoa::{Buffer, Integer};
use std::alloc::{AllocError, Global};

fn push_number<I: Integer>(text: &mut Vec<u8>, number: I) -> Result<(), AllocError>
    ensures { OnOk result (text.new.items ≡ text.old.items ++ I.text number) }
{
    let mut buffer = Buffer::new();
    text.extend_from_slice(buffer.format(number).as_bytes())?;
    Ok(())
}

// Appends the number that a word stands for in a kind.
fn push_value(text: &mut Vec<u8>, kind: Kind, word: u64) -> Result<(), AllocError>
    ensures { OnOk result (text.new.items ≡ text.old.items ++ signed_decimal (number_of kind word)) }
{
    if kind.signed {
        push_number(text, word.cast_signed())
    } else {
        push_number(text, word)
    }
}

fn push_spaced_value(text: &mut Vec<u8>, kind: Kind, word: u64) -> Result<(), AllocError>
    ensures { OnOk result (text.new.items ≡ text.old.items ++ spaced_value kind word) }
{
    text.extend_from_slice(b" ")?;
    push_value(text, kind, word)?;
    Ok(())
}

// What a kind has of a word.
fn fitted(word: u64, kind: Kind) -> u64
    requires { IsKind kind }
    ensures { result ≡ fitted kind word }
{
    convert(word, Kind::UNSIGNED_LONG, kind)
}

// Appends arguments, each converted to its parameter's kind.
fn push_arguments(text: &mut Vec<u8>, words: &[u64], kinds: &[Kind]) -> Result<(), AllocError>
    requires same { length words.now ≡ length kinds.now }
    requires kinds { IsTrue (list_all is_kind kinds.now) }
    ensures { OnOk result (text.new.items ≡ text.old.items ++ arguments_text words.now kinds.now) }
{
    for place in 0..words.len() {
        let kind = kinds[place];
        push_spaced_value(text, kind, fitted(words[place], kind))?;
    }
    Ok(())
}

fn push_values(text: &mut Vec<u8>, values: &[(Kind, u64)]) -> Result<(), AllocError>
    ensures { OnOk result (text.new.items ≡ text.old.items ++ flat_map (λ value. spaced_value value.0 value.1) values.now) }
{
    for value in values {
        push_spaced_value(text, value.0, value.1)?;
    }
    Ok(())
}

fn push_answers(text: &mut Vec<u8>, taken: &[(Kind, u64)]) -> Result<(), AllocError>
    ensures { OnOk result (text.new.items ≡ text.old.items ++ answers_text taken.now) }
{
    match taken {
        [] => Ok(()),
        [_first, ..] => {
            text.extend_from_slice(b" answers")?;
            push_values(text, taken)?;
            Ok(())
        }
    }
}

fn push_edges(text: &mut Vec<u8>, edges: &[u32]) -> Result<(), AllocError>
    ensures { OnOk result (text.new.items ≡ text.old.items ++ edges_text edges.now) }
{
    for edge in edges {
        text.extend_from_slice(b" ")?;
        push_number(text, *edge)?;
    }
    Ok(())
}

fn push_trace(text: &mut Vec<u8>, kinds: &[Kind], trace: &Trace) -> Result<(), AllocError>
    requires words { HasWords kinds.now trace.now }
    requires kinds { IsTrue (list_all is_kind kinds.now) }
    ensures { OnOk result (text.new.items ≡ text.old.items ++ trace_line kinds.now trace.now) }
{
    text.extend_from_slice(b"args")?;
    push_arguments(text, &trace.input.words, kinds)?;
    push_answers(text, &trace.run.taken)?;
    text.extend_from_slice(b" edges")?;
    push_edges(text, &trace.run.edges)?;
    text.extend_from_slice(b"\n")?;
    Ok(())
}

fn push_traces(text: &mut Vec<u8>, kinds: &[Kind], traces: &[Trace]) -> Result<(), AllocError>
    requires words { All (HasWords kinds.now) traces.now }
    requires kinds { IsTrue (list_all is_kind kinds.now) }
    ensures { OnOk result (text.new.items ≡ text.old.items ++ flat_map (trace_line kinds.now) traces.now) }
{
    for trace in traces {
        push_trace(text, kinds, trace)?;
    }
    Ok(())
}

/// The trace file of traces of a function with parameters of these kinds: the arguments as numbers of the parameters' kinds,
/// the answers that the runs took as numbers of theirs, and the runs' edges. Each input has one word for each kind.
pub fn trace_text(alloc: Global, traces: &[Trace], kinds: &[Kind]) -> Result<Vec<u8>, Memory>
    requires words { All (HasWords kinds.now) traces.now }
    requires kinds { IsTrue (list_all is_kind kinds.now) }
    ensures { IfOk result (λ text. text.items ≡ traces_text kinds.now traces.now) }
{
    let mut text = Vec::from_slice(alloc, b"fshell traces 1\n")?;
    push_traces(&mut text, kinds, traces)?;
    Ok(text)
}
