//! Counts the items of sources, for bench/trees, bench/depths and the acceptance run: `count_items FILE..`. A line for each
//! file has their number, or says that it was refused or not read.
#![tactic(auto)]

use c_lex::{SourceText, tokens};
use c_parse::parse;
use containers::Vector;
use fq_core::{Fault, Name};
use fq_io::{Files, RealFiles};
use std::alloc::Global;
use std::process::ExitCode;
use std::{env, io};

const MOST_BYTES: u64 = 4 * 1024 * 1024;

// How many items a source has, or why it has none.
fn count<F: Files>(alloc: Global, files: &mut F, file: &str) -> Result<usize, Fault> {
    let name = Name::new(alloc, file.as_bytes())?;
    let Ok(bytes) = files.read_whole(alloc, file, MOST_BYTES) else {
        return Err(Fault::Memory);
    };
    let text = SourceText {
        name,
        bytes: Vector::from_vec(bytes),
    };
    let tokens = tokens(alloc, &[text])?;
    let unit = parse(alloc, tokens.as_slice())?;
    Ok(unit.items.len())
}

fn main(rt: HostRuntime) -> Result<ExitCode, io::Error> {
    let mut files = RealFiles::new(&rt);
    let mut status = 0;
    for file in env::args(&rt)?.skip(1) {
        match count(rt.alloc(), &mut files, file.as_str()) {
            Ok(count) => println!(rt; "{count}")?,
            Err(Fault::Refused(refusal)) => {
                let code = refusal.code;
                println!(rt; "refused {code}")?;
                status = 1;
            }
            Err(Fault::Memory) => {
                println!(rt; "not read, or no memory")?;
                status = 1;
            }
        }
    }
    Ok(ExitCode::from(status))
}
