// How runs end.
ghost use Rattle.std.specs.Prelude.{◌≡◌, ◌++◌, OnOk, Some, option_map};
ghost use Rattle.std.specs.Fmt.{signed_decimal};
ghost use Rattle.c_values.specs.Kind.{number_of};
ghost use Rattle.report.specs.Ends.{end_name, end_text, end_value, number_in, result_kind, returned_word, spaced_value, value_text};

use crate::numbers::push_number;
use c_values::Kind;
use cfa::{Graph, Trap};
use path_runner::RunEnd;
use std::alloc::AllocError;

/// The kind of what an entry gives, where it gives something.
pub fn result_kind(graph: &Graph, entry: u32) -> Option<Kind>
    ensures { result ≡ result_kind graph.now entry }
{
    match graph.functions().get(entry as usize) {
        Some(function) => function.result,
        None => None,
    }
}

fn trapped_name(trap: Trap) -> &'static str
    ensures { result.now ≡ end_name (RunEnd.Trapped trap) }
{
    match trap {
        Trap::ZeroDivisor => "trapped zero-divisor",
        Trap::OverflowDivisor => "trapped overflow-divisor",
        Trap::Index => "trapped index",
        Trap::Shift => "trapped shift",
        Trap::Assert => "trapped assert",
    }
}

/// The words of an end, without its value.
pub fn end_name(end: &RunEnd) -> &'static str
    ensures { result.now ≡ end_name end.now }
{
    match end {
        RunEnd::Returned { .. } => "returned",
        RunEnd::Trapped(trap) => trapped_name(*trap),
        RunEnd::Blocked => "blocked",
        RunEnd::TooDeep => "too-deep",
        RunEnd::Cut => "cut",
    }
}

fn returned_word(end: &RunEnd) -> Option<u64>
    ensures { result ≡ returned_word end.now }
{
    match end {
        RunEnd::Returned { value } => *value,
        _ => None,
    }
}

/// The word that was returned with its kind, where the entry gives something of this kind.
pub fn value_with_kind(kind: Option<Kind>, end: &RunEnd) -> Option<(Kind, u64)>
    ensures { option_map (λ value. number_of value.0 value.1) result ≡ end_value kind end.now }
{
    let kind = kind?;
    let word = returned_word(end)?;
    Some((kind, word))
}

// Appends the number that a word stands for in a kind.
fn push_value(text: &mut Vec<u8>, kind: Kind, word: u64) -> Result<(), AllocError>
    ensures { OnOk result (text.new.items ≡ text.old.items ++ signed_decimal (number_of kind word)) }
{
    if kind.signed {
        push_number(text, word.cast_signed())
    } else {
        push_number(text, word)
    }
}

/// Appends a space and the number that a word stands for in a kind.
pub fn push_spaced_value(text: &mut Vec<u8>, kind: Kind, word: u64) -> Result<(), AllocError>
    ensures { OnOk result (text.new.items ≡ text.old.items ++ spaced_value kind word) }
{
    text.extend_from_slice(b" ")?;
    push_value(text, kind, word)?;
    Ok(())
}

// Appends a space and the number that a word stands for in a kind, where there is one.
fn push_value_after(text: &mut Vec<u8>, value: Option<(Kind, u64)>) -> Result<(), AllocError>
    ensures { OnOk result (text.new.items ≡ text.old.items ++ value_text (option_map (λ value. number_of value.0 value.1) value)) }
{
    match value {
        Some((kind, word)) => push_spaced_value(text, kind, word),
        None => Ok(()),
    }
}

/// Appends the words of an end, and its value where there is one.
pub fn push_end(text: &mut Vec<u8>, kind: Option<Kind>, end: &RunEnd) -> Result<(), AllocError>
    ensures { OnOk result (text.new.items ≡ text.old.items ++ end_text kind end.now) }
{
    text.extend_from_slice(end_name(end).as_bytes())?;
    push_value_after(text, value_with_kind(kind, end))?;
    Ok(())
}
