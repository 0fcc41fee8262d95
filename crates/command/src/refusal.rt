// The status and the line of a refusal.
ghost use Rattle.std.specs.Prelude.{◌≡◌, ◌++◌, [], IfOk, OnOk, slice_get, unwrap_or};
ghost use Rattle.std.specs.Fmt.{decimal};
ghost use Rattle.fq_core.specs.declared.refusal.Place.TheVariants as place;
ghost use Rattle.command.specs.Refusal.{line_of, place_text, status_of};
ghost use Rattle.command_words.specs.Request.{texts_at};

use crate::Status;
use fq_core::{Place, Refusal, code_name};
use std::alloc::{AllocError, Global};

/// A refusal without a place.
pub fn nowhere(code: u16) -> Refusal
    ensures { result ≡ record { code = code; place = place.Nowhere } }
{
    Refusal {
        code,
        place: Place::Nowhere,
    }
}

/// The query has no goal of the number.
pub fn no_such_goal() -> Refusal
    ensures { result ≡ record { code = 74; place = place.QueryWhole } }
{
    Refusal {
        code: 74,
        place: Place::QueryWhole,
    }
}

/// The status in which a refusal of this code ends, or none for a number that is no code.
pub fn refused_status(code: u16) -> Option<Status>
    ensures { result ≡ status_of code }
{
    let status = match code {
        2 => Status::Usage,
        7 => Status::ReadFault,
        10 | 11 | 12 | 13 | 14 | 20 | 21 | 29 | 30 | 31 | 32 | 33 | 35 | 36 | 38 | 39 =>
            Status::SourceRefused,
        60 | 61 | 62 | 64 | 65 | 66 | 70 | 72 | 74 => Status::QueryRefused,
        50 | 51 | 52 | 55 | 56 => Status::InputRefused,
        15 | 16 | 22 | 34 | 37 | 41 | 53 | 54 | 63 | 67 | 71 | 73 | 80 | 81 | 82 => Status::Limit,
        90 | 91 | 92 | 93 => Status::CertificateRejected,
        _ => return None,
    };
    Some(status)
}

fn push_number(
    alloc: Global,
    line: &mut Vec<u8>,
    front: &str,
    number: u64,
) -> Result<(), AllocError>
    ensures { OnOk result (line.new.items ≡ line.old.items ++ (front.now ++ decimal number)) }
{
    let number = number.to_string(alloc)?;
    line.extend_from_slice(front.as_bytes())?;
    line.extend_from_slice(number.as_bytes())?;
    Ok(())
}

// A source's name, or nothing past the last source.
fn source_name<'a>(sources: &[&'a str], file: u32) -> &'a [u8]
    ensures { result.now ≡ unwrap_or (slice_get (texts_at sources.now) file) [] }
{
    match sources.get(file as usize) {
        Some(name) => name.as_bytes(),
        None => &[],
    }
}

fn push_place(
    alloc: Global,
    line: &mut Vec<u8>,
    sources: &[&str],
    place: &Place,
) -> Result<(), AllocError>
    ensures { OnOk result (line.new.items
        ≡ line.old.items ++ place_text (texts_at sources.now) place.now) }
{
    match place {
        Place::Nowhere => Ok(()),
        Place::Source { file, line: number } => {
            line.push(b' ')?;
            line.extend_from_slice(source_name(sources, *file))?;
            push_number(alloc, line, ":", *number as u64)
        }
        Place::Query { column } => push_number(alloc, line, " query:", *column as u64),
        Place::QueryWhole => line.extend_from_slice(b" query"),
        Place::InputNumber { number } => push_number(alloc, line, " input ", *number as u64),
        Place::Limit { number } => push_number(alloc, line, " limit ", *number),
        Place::FileName { name } => {
            line.push(b' ')?;
            line.extend_from_slice(name.bytes())
        }
        Place::Line { number } => push_number(alloc, line, " line ", *number as u64),
    }
}

/// The line that tells of a refusal, where the sources have these names.
pub fn refusal_line(
    alloc: Global,
    sources: &[&str],
    refusal: &Refusal,
) -> Result<Vec<u8>, AllocError>
    ensures { IfOk result (λ line. line.items ≡ line_of (texts_at sources.now) refusal.now) }
{
    let mut line = Vec::new(alloc);
    push_number(alloc, &mut line, "error ", refusal.code as u64)?;
    line.push(b' ')?;
    line.extend_from_slice(code_name(refusal.code).as_bytes())?;
    push_place(alloc, &mut line, sources, &refusal.place)?;
    line.push(b'\n')?;
    Ok(line)
}
