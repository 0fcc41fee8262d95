//! Checks certificates, for bench/certificates: `check_lines FILE`.
#![tactic(auto)]

use certificate::read_certificate;
use derivation_check::{Checker, Verdict};
use fq_io::{Files, RealFiles};
use std::alloc::Global;
use std::process::ExitCode;
use std::{env, io};

const MOST_BYTES: u64 = 256 * 1024 * 1024;

// The verdict on a certificate, or nothing where it can't be read or is refused.
fn verdict<F: Files>(alloc: Global, files: &mut F, file: &str) -> Option<Verdict> {
    let Ok(bytes) = files.read_whole(alloc, file, MOST_BYTES) else {
        return None;
    };
    if bytes.len() as u64 > MOST_BYTES {
        return None;
    }
    let Ok((formula, derivation)) = read_certificate(alloc, &bytes) else {
        return None;
    };
    if derivation.lines.len() as u64 > MOST_BYTES {
        return None;
    }
    match Checker::prepare(alloc, &formula, &derivation) {
        Ok(mut checker) => Some(checker.check()),
        Err(_) => None,
    }
}

fn main(rt: HostRuntime) -> Result<ExitCode, io::Error> {
    let mut files = RealFiles::new(&rt);
    for file in env::args(&rt)?.skip(1) {
        match verdict(rt.alloc(), &mut files, file.as_str()) {
            Some(Verdict::Yes) => println!(rt; "yes")?,
            Some(Verdict::BadStep { line }) => println!(rt; "line {line} is not right")?,
            Some(Verdict::NoEmptyClause) => println!(rt; "no empty clause")?,
            None => return Ok(ExitCode::from(1)),
        }
    }
    Ok(ExitCode::from(0))
}
