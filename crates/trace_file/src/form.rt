// The lines of a trace file.
ghost use Rattle.std.specs.Prelude.{◌≡◌, ◌==◌, ◌<◌, ◌∷◌, [], IfErr, IfOk, IfSome, Err, MatchOption, Ok, length, position};
ghost use Rattle.std.specs.List.{slice_split};
ghost use Rattle.fq_core.specs.declared.refusal.Fault.TheVariants as fault;
ghost use Rattle.fq_core.specs.Refusals.{IfRefused};
ghost use Rattle.trace_file.specs.Form.{form_of, lines_from};
ghost use Rattle.trace_file.specs.Reading.{IsOtherForm, line_place, refused_at};

use crate::line::{Line, line_in};
use crate::parts::is_text;
use fq_core::{Fault, Place, Refusal};
use std::alloc::Global;

fn line_feed(text: &[u8]) -> Option<usize>
    ensures { result ≡ position (λ byte. byte == 10) text.now }
{
    text.iter().position(|byte| *byte == b'\n')
}

// The line at the front of a text and what follows its line feed, or `None` where it has none.
fn first_line(text: &[u8]) -> Option<(&[u8], &[u8])>
    ensures lines { MatchOption result
        (slice_split (λ byte. byte == 10) text.now ≡ text.now ∷ [])
        (λ cut. slice_split (λ byte. byte == 10) text.now ≡ cut.0.now ∷ slice_split (λ byte. byte == 10) cut.1.now) }
    ensures shorter { IfSome result (λ cut. length cut.1.now < length text.now) }
{
    match line_feed(text) {
        Some(place) => Some((&text[..place], &text[place + 1..])),
        None => None,
    }
}

/// The refusal of a code at a line, from 1.
pub(crate) fn refused_at(code: u16, line: usize) -> Fault
    ensures { result ≡ fault.Refused (refused_at code (line_place line)) }
{
    let number = line.min(0xffff_ffff) as u32;
    Fault::Refused(Refusal {
        code,
        place: Place::Line { number },
    })
}

// The lines that follow the title.
fn lines_in(alloc: Global, text: &[u8], parameters: usize) -> Result<Vec<Line>, Fault>
    ensures ok { IfOk result (λ lines. lines_from parameters 2 (slice_split (λ byte. byte == 10) text.now) ≡ Ok lines.items) }
    ensures refused { IfErr result (λ fault. IfRefused fault (IsOtherForm (lines_from parameters 2 (slice_split (λ byte. byte == 10) text.now)))) }
{
    let mut lines = Vec::new(alloc);
    let mut rest = text;
    while rest.len() > 0 {
        let number = lines.len() + 2;
        let Some((line, more)) = first_line(rest) else {
            return Err(refused_at(55, number));
        };
        match line_in(alloc, line, parameters)? {
            Some(line) => lines.push(line)?,
            None => return Err(refused_at(55, number)),
        }
        rest = more;
    }
    Ok(lines)
}

/// The lines of a trace file of a function with so many parameters, or the refusal of the first that has another form.
pub(crate) fn form_of(alloc: Global, bytes: &[u8], parameters: usize) -> Result<Vec<Line>, Fault>
    ensures ok { IfOk result (λ lines. form_of parameters bytes.now ≡ Ok lines.items) }
    ensures refused { IfErr result (λ fault. IfRefused fault (IsOtherForm (form_of parameters bytes.now))) }
{
    let Some((first, rest)) = first_line(bytes) else {
        return Err(refused_at(55, 1));
    };
    if is_text(first, b"fshell traces 1") {
        lines_in(alloc, rest, parameters)
    } else {
        Err(refused_at(55, 1))
    }
}
