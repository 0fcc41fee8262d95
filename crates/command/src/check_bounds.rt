// A certificate checked against the formula of the inputs that leave bounds.
ghost use Rattle.command_words.specs.Request.{checking_bounds};
ghost use Rattle.command_words.specs.Request as asks;
ghost use Rattle.command.specs.Answered.{IsTold};
ghost use Rattle.command.specs.Ranges.{IsInRange};
ghost use Rattle.command.specs.Reads.{reads};

use crate::certificate_file::read_certificate_file;
use crate::comparison::compared;
use crate::entry::entry_named;
use crate::generate::within;
use crate::reply::Reply;
use crate::sources::automaton;
use bounds_check::{Bounded, bounds_formula};
use command_words::CheckBounds;
use fq_core::Fault;
use fq_io::Files;
use report::suffice_text;
use std::alloc::Global;

/// What is due of `check-bounds`.
pub fn check_bounds<F: Files>(
    alloc: Global,
    request: &CheckBounds,
    files: &mut F,
) -> Result<Reply, Fault>
    requires { IsInRange (asks.check_bounds (checking_bounds request.now)) }
    ensures { IsTold (reads F.Files files.old files.new)
        (asks.check_bounds (checking_bounds request.now)) result }
{
    let automaton = automaton(alloc, files, &request.sources)?;
    let entry = entry_named(&automaton, request.entry)?;
    let theirs = read_certificate_file(alloc, files, request.certificate)?;
    let bounds = within(request.bounds);
    let bounded = Bounded { entry, bounds };
    let ours = bounds_formula(alloc, &bounded)?;
    let text = suffice_text(alloc, bounds)?;
    compared(alloc, text, &theirs, &ours)
}
