// The files that a request names.
ghost use Rattle.std.specs.Prelude.{◌≡◌, ◌++◌, ◌∷◌, [], IfOk};
ghost use Rattle.command_words.specs.Request.{asked, texts_at};
ghost use Rattle.command.specs.CertificateFile.{most_certificate};
ghost use Rattle.command.specs.Inputs.{most_inputs};
ghost use Rattle.command.specs.TraceFile.{most_trace_bytes};
ghost use Rattle.command.specs.fshell_core.Named.{named_by, shown, sources};

use command_words::Request;
use fq_io_recorded::Wanted;
use std::alloc::{AllocError, Global};

const MOST_SOURCE_BYTES: u64 = 4_194_304;

const MOST_INPUT_BYTES: u64 = 16_777_216;

const MOST_TRACE_BYTES: u64 = 16_777_216;

const MOST_CERTIFICATE_BYTES: u64 = 268_435_456;

fn of_sources<'a>(alloc: Global, names: &[&'a str]) -> Result<Vec<Wanted<'a>>, AllocError>
    ensures { IfOk result (λ all. shown all.items ≡ sources (texts_at names.now)) }
{
    let mut all = Vec::new(alloc);
    for name in names {
        all.push(Wanted {
            name: *name,
            most: MOST_SOURCE_BYTES,
        })?;
    }
    Ok(all)
}

// The sources, and then one more file.
fn and_file<'a>(
    alloc: Global,
    names: &[&'a str],
    name: &'a str,
    most: u64,
) -> Result<Vec<Wanted<'a>>, AllocError>
    ensures { IfOk result (λ all. shown all.items ≡ sources (texts_at names.now) ++ (name.now, most) ∷ []) }
{
    let mut all = of_sources(alloc, names)?;
    all.push(Wanted { name, most })?;
    Ok(all)
}

/// The files that a request names, and how many bytes each may have: its sources, and then its inputs, traces or certificate.
pub fn named<'a>(alloc: Global, request: &Request<'a>) -> Result<Vec<Wanted<'a>>, AllocError>
    ensures { IfOk result (λ all. shown all.items ≡ named_by (asked request.now)) }
{
    match request {
        Request::Measure(r) => and_file(alloc, &r.sources, r.inputs, MOST_INPUT_BYTES),
        Request::Generate(r) => of_sources(alloc, &r.sources),
        Request::Goals(r) => of_sources(alloc, &r.sources),
        Request::Runs(r) => and_file(alloc, &r.sources, r.inputs, MOST_INPUT_BYTES),
        Request::Prove(r) => of_sources(alloc, &r.sources),
        Request::Check(r) => and_file(alloc, &r.sources, r.certificate, MOST_CERTIFICATE_BYTES),
        Request::Bounds(r) => of_sources(alloc, &r.sources),
        Request::ProveBounds(r) => of_sources(alloc, &r.sources),
        Request::CheckBounds(r) => {
            and_file(alloc, &r.sources, r.certificate, MOST_CERTIFICATE_BYTES)
        }
        Request::Least(r) => of_sources(alloc, &r.sources),
        Request::Traces(r) => and_file(alloc, &r.sources, r.inputs, MOST_INPUT_BYTES),
        Request::Replay(r) => and_file(alloc, &r.sources, r.traces, MOST_TRACE_BYTES),
        Request::Trees(r) => and_file(alloc, &r.sources, r.inputs, MOST_INPUT_BYTES),
        Request::Events(r) => and_file(alloc, &r.sources, r.inputs, MOST_INPUT_BYTES),
        Request::Graph(sources) => of_sources(alloc, sources),
        Request::Sample(_) => Ok(Vec::new(alloc)),
    }
}
