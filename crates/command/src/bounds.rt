// Whether bounds suffice.
ghost use Rattle.std.specs.Prelude.{◌≡◌, IfOk};
ghost use Rattle.report.specs.Made.{parameter_kinds};
ghost use Rattle.command_words.specs.Request.{sufficing};
ghost use Rattle.command.specs.Bounds.{HasInputFor, IsDueOfBounds, IsSaidOfBounds, sufficient_text};
ghost use Rattle.command.specs.Entries.{seen};
ghost use Rattle.command.specs.Ranges.{AreBounds};
ghost use Rattle.command.specs.Reads.{reads};
ghost use Rattle.command.specs.Replies.{Gives, IsReply};
ghost use Rattle.command.specs.Stages.{OfSources};
ghost use Rattle.command.specs.Watched.{watched};

use crate::entry::entry_named;
use crate::generate::within;
use crate::reply::Reply;
use crate::sources::automaton;
use bounds_check::{Bounded, Suffice, bounds_suffice};
use certificate::write_certificate;
use cnf::{Derivation, Formula};
use command_words::Suffice as Asked;
use fq_core::{Fault, Memory};
use fq_io::Files;
use report::{left_text, open_bounds_text, suffice_text};
use search::Watch;
use std::alloc::Global;
use suite_problem::Entry;
use unwinder_reach::reached::Bounds;

/// What is written where bounds suffice.
#[derive(Clone, Copy)]
pub enum Form {
    /// The line that says so.
    Line,
    /// A certificate that says so.
    Certificate,
}

// What is written where no input leaves the bounds, by this derivation.
fn sufficient(
    alloc: Global,
    form: Form,
    bounds: Bounds,
    formula: &Formula,
    derivation: &Derivation,
) -> Result<Vec<u8>, Memory>
    ensures { IfOk result (λ text.
        text.items ≡ sufficient_text form bounds formula.now derivation.now) }
{
    match form {
        Form::Line => suffice_text(alloc, bounds),
        Form::Certificate => write_certificate(alloc, formula, derivation),
    }
}

// What is said of what is found. The watch is shown the search where it stays open.
fn said_of<W: Watch>(
    alloc: Global,
    form: Form,
    entry: &Entry,
    bounds: Bounds,
    suffice: Suffice,
    watch: &mut W,
) -> Result<Reply, Memory>
    requires { HasInputFor (parameter_kinds entry.now.graph.now entry.now.number) suffice }
    ensures { IfOk result (λ reply.
        IsReply (IsSaidOfBounds form entry.now.graph.now (seen entry.now) bounds suffice)
        (watched W.Watch watch.old watch.new) reply) }
{
    match suffice {
        Suffice::Yes {
            formula,
            derivation,
        } => {
            let text = sufficient(alloc, form, bounds, &formula, &derivation)?;
            Ok(Reply::Answer {
                text,
                left_open: false,
            })
        }
        Suffice::Left(input) => {
            let text = left_text(alloc, entry.graph, entry.number, &input)?;
            Ok(Reply::Answer {
                text,
                left_open: false,
            })
        }
        Suffice::Open { formula, history } => {
            let text = open_bounds_text(alloc)?;
            watch.shown(0, &formula, &history)?;
            Ok(Reply::Answer {
                text,
                left_open: true,
            })
        }
    }
}

/// What is due of `bounds` and `prove-bounds`, by what is written where the bounds suffice.
pub fn bounds<F: Files, W: Watch>(
    alloc: Global,
    form: Form,
    request: &Asked,
    files: &mut F,
    watch: &mut W,
) -> Result<Reply, Fault>
    requires { AreBounds request.now.bounds }
    ensures { let m = sufficing request.now in
        Gives (OfSources (reads F.Files files.old files.new) m.sources (IsDueOfBounds form m))
        m.sources (watched W.Watch watch.old watch.new) result }
{
    let automaton = automaton(alloc, files, &request.sources)?;
    let entry = entry_named(&automaton, request.entry)?;
    let bounds = within(request.bounds);
    let bounded = Bounded { entry, bounds };
    let suffice = bounds_suffice(alloc, &bounded, request.budget as u64)?;
    let reply = said_of(alloc, form, &entry, bounds, suffice, watch)?;
    Ok(reply)
}
