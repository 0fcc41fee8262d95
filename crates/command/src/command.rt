// The top call.
ghost use Rattle.std.specs.Prelude.{◌≡◌, IsSome};
ghost use Rattle.command_words.specs.Reading.{texts};
ghost use Rattle.command_words.specs.Request.{asked, texts_at};
ghost use Rattle.command.specs.Asked.{sources_of};
ghost use Rattle.command.specs.Accepted.{Certifies, CertifiesBounds};
ghost use Rattle.command.specs.Due.{IsDue, IsDueOf};
ghost use Rattle.command.specs.Ranges.{IsInRange};
ghost use Rattle.command.specs.Refusal.{status_of};
ghost use Rattle.command.specs.Reads.{reads};
ghost use Rattle.command.specs.Outcome.{Ends, EndsWriting, Refuses, WritesReply, writes};
ghost use Rattle.command.specs.Said.{status_with};
ghost use Rattle.command.specs.Watched.{watched};

use crate::Status;
use crate::refusal::{nowhere, refusal_line, refused_status};
use crate::reply::Reply;
use crate::session::answer;
use c_front::laws::refused_by_these_codes;
use command_words::{Refused, Request, request};
use fq_core::{Fault, Refusal};
use fq_io::{Files, Sink, SinkFault, write_all};
use search::Watch;
use std::alloc::Global;

/// The names of the sources of a program that is made from a number.
static SAMPLE_SOURCES: [&str; 1] = ["sample.c"];

/// Does what the words after the program's name ask for. The whole text is made before its first byte is written. The watch is
/// shown each goal that stays undecided, with its formula and the history of its search.
///
/// Where `check` is done, no input has a run within the bounds that hits the goal, whatever bytes the certificate has. Where
/// `check-bounds` is done, no input has a run that leaves the bounds.
pub fn run<F: Files, O: Sink, E: Sink, W: Watch>(
    alloc: Global,
    words: &[String],
    files: &mut F,
    out: &mut O,
    err: &mut E,
    watch: &mut W,
) -> Status
    ensures ends { Ends (IsDue (reads F.Files files.old files.new) (texts words.now))
        result (writes O.Sink out.old out.new) (writes E.Sink err.old err.new)
        (watched W.Watch watch.old watch.new) }
    ensures certificate { Certifies (reads F.Files files.old files.new) (texts words.now) result }
    ensures bounds_certificate { CertifiesBounds (reads F.Files files.old files.new)
        (texts words.now) result }
{
    run_words(alloc, words, files, out, err, watch)
}

// Does what the words ask for.
fn run_words<F: Files, O: Sink, E: Sink, W: Watch>(
    alloc: Global,
    words: &[String],
    files: &mut F,
    out: &mut O,
    err: &mut E,
    watch: &mut W,
) -> Status
    ensures { Ends (IsDue (reads F.Files files.old files.new) (texts words.now))
        result (writes O.Sink out.old out.new) (writes E.Sink err.old err.new)
        (watched W.Watch watch.old watch.new) }
{
    match request(alloc, words) {
        Ok(request) => serve(alloc, &request, files, out, err, watch),
        Err(Refused::Usage) => refuse(alloc, &[], &nowhere(2), err),
        Err(Refused::Memory) => Status::Memory,
    }
}

// Does what a request asks for.
fn serve<F: Files, O: Sink, E: Sink, W: Watch>(
    alloc: Global,
    request: &Request,
    files: &mut F,
    out: &mut O,
    err: &mut E,
    watch: &mut W,
) -> Status
    requires { IsInRange (asked request.now) }
    ensures { Ends (IsDueOf (reads F.Files files.old files.new) (asked request.now))
        result (writes O.Sink out.old out.new) (writes E.Sink err.old err.new)
        (watched W.Watch watch.old watch.new) }
{
    refused_by_these_codes();
    match answer(alloc, request, files, watch) {
        Ok(reply) => write_reply(reply, out, err),
        Err(Fault::Refused(refusal)) => refuse(alloc, sources_of(request), &refusal, err),
        Err(Fault::Memory) => Status::Memory,
    }
}

// The names of a request's sources.
fn sources_of<'a>(request: &'a Request<'a>) -> &'a [&'a str]
    ensures { texts_at result.now ≡ sources_of (asked request.now) }
{
    match request {
        Request::Measure(request) => &request.sources,
        Request::Generate(request) => &request.sources,
        Request::Goals(request) => &request.sources,
        Request::Runs(request) => &request.sources,
        Request::Prove(request) => &request.sources,
        Request::Check(request) => &request.sources,
        Request::Bounds(request) => &request.sources,
        Request::ProveBounds(request) => &request.sources,
        Request::CheckBounds(request) => &request.sources,
        Request::Least(request) => &request.sources,
        Request::Traces(request) => &request.sources,
        Request::Replay(request) => &request.sources,
        Request::Trees(request) => &request.sources,
        Request::Events(request) => &request.sources,
        Request::Graph(sources) => sources,
        Request::Sample(_) => &SAMPLE_SOURCES,
    }
}

// Writes what there is of an answer.
fn write_reply<O: Sink, E: Sink>(reply: Reply, out: &mut O, err: &mut E) -> Status
    ensures { WritesReply reply result
        (writes O.Sink out.old out.new) (writes E.Sink err.old err.new) }
{
    match reply {
        Reply::Answer { text, left_open } => conclude(out, &text, left_open),
        Reply::OtherFormula { line } => reject(err, &line),
    }
}

// Writes the text of an answer.
fn conclude<O: Sink>(out: &mut O, text: &[u8], left_open: bool) -> Status
    ensures { EndsWriting (status_with left_open) text.now result (writes O.Sink out.old out.new) }
{
    match write_all(out, text) {
        Ok(()) if left_open => Status::DoneOpen,
        Ok(()) => Status::Done,
        Err(SinkFault::Failed) => Status::WriteFault,
        Err(SinkFault::Memory) => Status::Memory,
    }
}

// Writes the line of a certificate whose formula is another one than ours.
fn reject<E: Sink>(err: &mut E, line: &[u8]) -> Status
    ensures { EndsWriting Status.CertificateRejected line.now result
        (writes E.Sink err.old err.new) }
{
    match write_all(err, line) {
        Ok(()) => Status::CertificateRejected,
        Err(SinkFault::Failed) => Status::WriteFault,
        Err(SinkFault::Memory) => Status::Memory,
    }
}

// Writes the refusal's line.
fn refuse<E: Sink>(alloc: Global, sources: &[&str], refusal: &Refusal, err: &mut E) -> Status
    requires { IsSome (status_of refusal.now.code) }
    ensures { Refuses (texts_at sources.now) refusal.now result (writes E.Sink err.old err.new) }
{
    // each refusal's code has a status (`requires`)
    let Some(status) = refused_status(refusal.code) else {
        unreachable!()
    };
    let Ok(line) = refusal_line(alloc, sources, refusal) else {
        return Status::Memory;
    };
    match write_all(err, &line) {
        Ok(()) => status,
        Err(SinkFault::Failed) => Status::WriteFault,
        Err(SinkFault::Memory) => Status::Memory,
    }
}
