// The numbers of a line.
ghost use Rattle.std.specs.Prelude.{◌≡◌, IfOk, map};
ghost use Rattle.trace_file.specs.Form.{edge_in, edges_of, is_plain, word_in, word_said, words_in};

use containers::Vector;
use fq_core::{WordText, word_of};
use std::alloc::{AllocError, Global};

// Whether a text has no leading zero and isn't `-0`.
fn is_plain(text: &[u8]) -> bool
    ensures { result ≡ is_plain text.now }
{
    !(text.starts_with(b"0") && text.len() > 1) && !text.starts_with(b"-0")
}

fn word_said(word: WordText) -> Option<u64>
    ensures { result ≡ word_said word }
{
    match word {
        WordText::Number(value) => Some(value),
        WordText::NotNumber | WordText::OutOfRange => None,
    }
}

fn word_in(text: &[u8]) -> Option<u64>
    ensures { result ≡ word_in text.now }
{
    if is_plain(text) {
        word_said(word_of(text))
    } else {
        None
    }
}

fn edge_in(text: &[u8]) -> Option<u32>
    ensures { result ≡ edge_in text.now }
{
    match word_in(text) {
        Some(value) if value < 1 << 32 => Some(value as u32),
        _ => None,
    }
}

/// The words that texts write, or `None` where one of them writes none.
pub(crate) fn words_in(alloc: Global, texts: &[&[u8]]) -> Result<Option<Vector<u64>>, AllocError>
    ensures { IfOk result (λ words. words ≡ words_in (map (λ text. text.now) texts.now)) }
{
    let mut words = Vector::new(alloc);
    for text in texts {
        match word_in(text) {
            Some(word) => words.push(word)?,
            None => return Ok(None),
        }
    }
    Ok(Some(words))
}

/// The edges that texts write, or `None` where one of them writes none.
pub(crate) fn edges_of(alloc: Global, texts: &[&[u8]]) -> Result<Option<Vector<u32>>, AllocError>
    ensures { IfOk result (λ edges. edges ≡ edges_of (map (λ text. text.now) texts.now)) }
{
    let mut edges = Vector::new(alloc);
    for text in texts {
        match edge_in(text) {
            Some(edge) => edges.push(edge)?,
            None => return Ok(None),
        }
    }
    Ok(Some(edges))
}
