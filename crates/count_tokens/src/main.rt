//! Counts the tokens of a source, for bench/tokens: `count_tokens FILE`.
#![tactic(auto)]

use c_lex::{SourceText, tokens};
use containers::Vector;
use fq_core::Name;
use fq_io::{Files, RealFiles};
use std::alloc::Global;
use std::process::ExitCode;
use std::{env, io};

const MOST_BYTES: u64 = 4 * 1024 * 1024;

// How many tokens a source has, or nothing where it can't be read or is refused.
fn count<F: Files>(alloc: Global, files: &mut F, file: &str) -> Option<usize> {
    let Ok(name) = Name::new(alloc, file.as_bytes()) else {
        return None;
    };
    let Ok(bytes) = files.read_whole(alloc, file, MOST_BYTES) else {
        return None;
    };
    let text = SourceText {
        name,
        bytes: Vector::from_vec(bytes),
    };
    match tokens(alloc, &[text]) {
        Ok(tokens) => Some(tokens.len()),
        Err(_) => None,
    }
}

fn main(rt: HostRuntime) -> Result<ExitCode, io::Error> {
    let mut files = RealFiles::new(&rt);
    for file in env::args(&rt)?.skip(1) {
        match count(rt.alloc(), &mut files, file.as_str()) {
            Some(count) => println!(rt; "{count}")?,
            None => return Ok(ExitCode::from(1)),
        }
    }
    Ok(ExitCode::from(0))
}
