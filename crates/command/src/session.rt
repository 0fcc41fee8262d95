// From a request to the text that it asks for.
ghost use Rattle.command_words.specs.Request.{asked};
ghost use Rattle.command.specs.Answered.{IsGiven};
ghost use Rattle.command.specs.Ranges.{IsInRange};
ghost use Rattle.command.specs.Reads.{reads};
ghost use Rattle.command.specs.Watched.{watched};

use crate::bounds::{Form, bounds};
use crate::check::check;
use crate::check_bounds::check_bounds;
use crate::events::events;
use crate::generate::generate;
use crate::goal_list::goals;
use crate::graph::graph;
use crate::least::least;
use crate::measure::measure;
use crate::prove::prove;
use crate::replay::replay;
use crate::reply::Reply;
use crate::runs::runs;
use crate::samples::sample;
use crate::traces::traces;
use crate::trees::trees;
use command_words::Request;
use fq_core::Fault;
use fq_io::Files;
use search::Watch;
use std::alloc::Global;

/// What a request asks for, or why it isn't given.
pub fn answer<F: Files, W: Watch>(
    alloc: Global,
    request: &Request,
    files: &mut F,
    watch: &mut W,
) -> Result<Reply, Fault>
    requires { IsInRange (asked request.now) }
    ensures { IsGiven (reads F.Files files.old files.new) (watched W.Watch watch.old watch.new)
        (asked request.now) result }
{
    match request {
        Request::Measure(request) => measure(alloc, request, files),
        Request::Generate(request) => generate(alloc, request, files, watch),
        Request::Goals(request) => goals(alloc, request, files),
        Request::Runs(request) => runs(alloc, request, files),
        Request::Prove(request) => prove(alloc, request, files, watch),
        Request::Check(request) => check(alloc, request, files),
        Request::Bounds(request) => bounds(alloc, Form::Line, request, files, watch),
        Request::ProveBounds(request) => bounds(alloc, Form::Certificate, request, files, watch),
        Request::CheckBounds(request) => check_bounds(alloc, request, files),
        Request::Least(request) => least(alloc, request, files, watch),
        Request::Traces(request) => traces(alloc, request, files),
        Request::Replay(request) => replay(alloc, request, files),
        Request::Trees(request) => trees(alloc, request, files),
        Request::Events(request) => events(alloc, request, files),
        Request::Graph(sources) => graph(alloc, sources, files),
        Request::Sample(number) => sample(alloc, *number, watch),
    }
}
