// The parts of a line.
ghost use Rattle.std.specs.Prelude.{◌≡◌, ◌==◌, ◌<◌, ◌∷◌, [], IfOk, IfSome, None, MatchOption, Some, length, map, position};
ghost use Rattle.std.specs.List.{slice_split};
ghost use Rattle.std.specs.Option.{option_map_or};
ghost use Rattle.std.specs.Str.{bytes_eq};
ghost use Rattle.trace_file.specs.Form.{cut_at, parts_of};

use std::alloc::{AllocError, Global};

fn space(text: &[u8]) -> Option<usize>
    ensures { result ≡ position (λ byte. byte == 32) text.now }
{
    text.iter().position(|byte| *byte == b' ')
}

// What stands in a text before its first space, and what follows that, where it has one.
fn first_part(text: &[u8]) -> (&[u8], Option<&[u8]>)
    ensures parts { parts_of text.now ≡ result.0.now ∷ option_map_or (λ rest. parts_of rest.now) result.1 [] }
    ensures shorter { IfSome result.1 (λ rest. length rest.now < length text.now) }
{
    match space(text) {
        Some(place) => (&text[..place], Some(&text[place + 1..])),
        None => (text, None),
    }
}

/// The parts of a line, between its spaces.
pub(crate) fn parts_of(alloc: Global, line: &[u8]) -> Result<Vec<&[u8]>, AllocError>
    ensures { IfOk result (λ parts. map (λ part. part.now) parts.items ≡ parts_of line.now) }
{
    let mut parts = Vec::new(alloc);
    let mut left = Some(line);
    while let Some(text) = left {
        let (part, rest) = first_part(text);
        parts.push(part)?;
        left = rest;
    }
    Ok(parts)
}

/// Whether a text is this one.
pub(crate) fn is_text(text: &[u8], other: &[u8]) -> bool
    ensures { result ≡ bytes_eq text.now other.now }
{
    text == other
}

/// The parts before and after the first that is this word.
pub(crate) fn cut_at<'a, 'b>(
    mark: &[u8],
    parts: &'a [&'b [u8]],
) -> Option<(&'a [&'b [u8]], &'a [&'b [u8]])>
    ensures { MatchOption result
        (cut_at mark.now (map (λ part. part.now) parts.now) ≡ None)
        (λ cut. cut_at mark.now (map (λ part. part.now) parts.now) ≡ Some (map (λ part. part.now) cut.0.now, map (λ part. part.now) cut.1.now)) }
{
    for (at, part) in parts.iter().enumerate() {
        if is_text(part, mark) {
            return Some((&parts[..at], &parts[at + 1..]));
        }
    }
    None
}
