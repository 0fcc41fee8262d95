// The inputs of the file that the words name.
ghost use Rattle.std.specs.Prelude.{◌≡◌, ◌<◌, ◌^◌, IfOk, length};
ghost use Rattle.std.specs.List.{All};
ghost use Rattle.c_meaning.specs.Starts.{CanStart};
ghost use Rattle.command.specs.Calls.{AreInputsAs};
ghost use Rattle.command.specs.Reads.{reads};

use crate::sources::read;
use c_meaning::Input;
use fq_core::{Fault, Memory};
use fq_io::Files;
use input_text::inputs;
use std::alloc::Global;
use suite_problem::Entry;

const MOST_INPUT_BYTES: u64 = 16_777_216;

// How many parameters the entry has.
fn parameters(entry: &Entry) -> Result<u32, Memory>
    ensures { IfOk result (λ count. count ≡ length entry.now.function.now.parameters) }
{
    match u32::try_from(entry.function.parameters.len()) {
        Ok(count) => Ok(count),
        Err(_) => Err(Memory),
    }
}

/// Reads the inputs of a file to the entry.
pub fn read_inputs<F: Files>(
    alloc: Global,
    files: &mut F,
    file: &str,
    entry: &Entry,
) -> Result<Vec<Input>, Fault>
    ensures answer { AreInputsAs (reads F.Files files.old files.new) file.now
        (length entry.now.function.now.parameters) result }
    ensures few { IfOk result (λ inputs. length inputs.items < 2 ^ 32) }
    ensures start { IfOk result (λ inputs.
        All (λ input. CanStart entry.now.function.now input.words) inputs.items) }
{
    let bytes = read(alloc, files, file, MOST_INPUT_BYTES)?;
    inputs(alloc, &bytes, parameters(entry)?)
}
