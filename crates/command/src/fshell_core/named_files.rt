// Reads the files that the words name.
ghost use Rattle.std.specs.Prelude.{IfOk};
ghost use Rattle.command_words.specs.Reading.{texts};
ghost use Rattle.fq_io.specs.Counts.{Rose};
ghost use Rattle.fq_io_recorded.specs.HandedFiles.{texts as told_texts};
ghost use Rattle.command.specs.fshell_core.Named.{AreReadBy};

use crate::fshell_core::named::named;
use command_words::{Refused, request};
use fq_core::Memory;
use fq_io::Files;
use fq_io_recorded::{HandedFiles, read_wanted};
use std::alloc::Global;

/// Reads the files that the words name, each once, in the order in which they are looked at, up to the first that can't be
/// read. Words that are no command name none.
pub fn read_named<F: Files>(
    alloc: Global,
    words: &[String],
    from: &mut F,
) -> Result<HandedFiles, Memory>
    ensures { IfOk result (λ files. AreReadBy (F.holds from.old) (texts words.now)
        (told_texts files) (Rose (F.faults from.old) (F.faults from.new))) }
{
    match request(alloc, words) {
        Ok(request) => read_wanted(alloc, from, &named(alloc, &request)?),
        Err(Refused::Usage) => read_wanted(alloc, from, &[]),
        Err(Refused::Memory) => Err(Memory),
    }
}
