// What the words ask for, over the files that were read.
ghost use Rattle.std.specs.Prelude.{◌≡◌, List, ℕ, ◌++◌};
ghost use Rattle.command_words.specs.Reading.{texts};
ghost use Rattle.command.specs.Accepted.{Certifies, CertifiesBounds};
ghost use Rattle.fq_io_recorded.specs.HandedFiles.{texts as told_texts};
ghost use Rattle.fq_io_recorded.specs.ToldSink.{told};
ghost use Rattle.command.specs.fshell_core.Answers.{Answers, IsDueOver, Over};

use crate::{Status, run};
use fq_io::RealSink;
use fq_io_recorded::{HandedFiles, ToldSink};
use search::NoWatch;
use std::alloc::Global;
use std::io::Write;

/// Does what the words ask for, by the bytes that were read: what the streams took is what is due of these bytes, by the status.
///
/// Where `check` is done, no input has a run within the bounds that hits the goal, whatever bytes the certificate has. Where
/// `check-bounds` is done, no input has a run that leaves the bounds.
pub fn answer<O: Write, E: Write>(
    alloc: Global,
    words: &[String],
    files: &mut HandedFiles,
    out: &mut ToldSink<RealSink<O>>,
    err: &mut ToldSink<RealSink<E>>,
) -> Status
    ensures answers { (written : List ℕ) × (complained : List ℕ)
        × (told out.new ≡ told out.old ++ written) × (told err.new ≡ told err.old ++ complained)
        × Answers (IsDueOver (told_texts files.old) (texts words.now)) result written complained }
    ensures certificate { Over (told_texts files.old) (λ r. Certifies r (texts words.now) result) }
    ensures bounds_certificate { Over (told_texts files.old) (λ r. CertifiesBounds r (texts words.now) result) }
{
    run(alloc, words, files, out, err, &mut NoWatch)
}
