//! The program: its core over the system's files and standard streams.
#![tactic(auto)]

use command::Status;
use command::fshell_core::{answer, read_named};
use fq_io::{RealFiles, RealSink};
use fq_io_recorded::ToldSink;
use std::process::ExitCode;
use std::{env, io};

// The words after the program's name, or none where one of them isn't UTF-8, so that they are no command.
fn words(rt: &HostRuntime) -> Result<Vec<String>, io::Error> {
    match env::args(rt) {
        Ok(args) => Ok(args.skip(1).collect(rt.alloc())?),
        Err(e) if e.kind() == io::ErrorKind::InvalidData => Ok(Vec::new(rt.alloc())),
        Err(e) => Err(e),
    }
}

fn main(rt: HostRuntime) -> ExitCode {
    let Ok(words) = words(&rt) else {
        return ExitCode::from(Status::Memory.exit_status());
    };
    let Ok(mut files) = read_named(rt.alloc(), &words, &mut RealFiles::new(&rt)) else {
        return ExitCode::from(Status::Memory.exit_status());
    };
    let mut out = ToldSink::new(RealSink::new(rt.stdout()));
    let mut err = ToldSink::new(RealSink::new(rt.stderr()));
    let status = answer(rt.alloc(), &words, &mut files, &mut out, &mut err);
    ExitCode::from(status.exit_status())
}
