// Reads the files that are wanted.
ghost use Rattle.std.specs.Prelude.{◌≡◌, ◌≢◌, ◌++◌, ◌⊎◌, List, ℕ, IfNone, IfOk, IfSome, IsFalse, IsSome, IsTrue, OnSome};
ghost use Rattle.std.specs.List.{All};
ghost use Rattle.fq_io.specs.Counts.{Rose};
ghost use Rattle.fq_io.specs.MemoryFiles.{content_of};
ghost use Rattle.fq_io_recorded.specs.Handed.{bytes_told};
ghost use Rattle.fq_io_recorded.specs.HandedFiles.{file_of, texts, times_of};
ghost use Rattle.fq_io_recorded.specs.Read.{AreAsOften, AreThere, IsOfWanted, Stands};
ghost use Rattle.fq_io_recorded.specs.Times.{times_with_one};

use crate::handed::Text;
use crate::handed_files::HandedFiles;
use crate::wanted::Wanted;
use fq_core::Memory;
use fq_io::{FileFault, Files};
use std::alloc::Global;

// Reads a file, where it can be read: all of it, or that it is too long.
fn text_of<F: Files>(alloc: Global, from: &mut F, wanted: &Wanted) -> Result<Option<Text>, Memory>
    ensures stands { IfOk result (λ text. IfSome text (λ text. Stands (F.holds from.old) wanted.now (bytes_told text))) }
    ensures failed { IfOk result (λ text. IfNone text (Rose (F.faults from.old) (F.faults from.new))) }
    ensures no_fault { IfOk result (λ text. OnSome text (F.faults from.new ≡ F.faults from.old)) }
    ensures same_files { F.holds from.new ≡ F.holds from.old }
{
    match from.read_whole(alloc, wanted.name, wanted.most) {
        Ok(bytes) => Ok(Some(Text::Whole(bytes))),
        Err(FileFault::TooLong) => Ok(Some(Text::Longer(wanted.most))),
        Err(FileFault::Failed) => Ok(None),
        Err(FileFault::Memory) => Err(Memory),
    }
}

// Reads a file, unless it was read before. False where it can't be read.
fn read_one<F: Files>(
    alloc: Global,
    from: &mut F,
    files: &mut HandedFiles,
    wanted: &Wanted,
) -> Result<bool, Memory>
    ensures more { (more : List (List ℕ × List ℕ)) × (texts files.new ≡ texts files.old ++ more)
        × All (λ entry. (entry.0 ≡ wanted.now.name.now) × Stands (F.holds from.old) wanted.now entry.1) more }
    ensures there { IfOk result (λ read. IsTrue read → IsSome (content_of (texts files.new) wanted.now.name.now)) }
    ensures failed { IfOk result (λ read. IsFalse read → Rose (F.faults from.old) (F.faults from.new)) }
    ensures no_fault { IfOk result (λ read. IsTrue read → F.faults from.new ≡ F.faults from.old) }
    ensures times { IfOk result (λ read. IsTrue read → times_of files.new wanted.now.name.now ≡ times_with_one (file_of files.old wanted.now.name.now)) }
    ensures others { (other : List ℕ) → other ≢ wanted.now.name.now → file_of files.new other ≡ file_of files.old other }
    ensures same_files { F.holds from.new ≡ F.holds from.old }
{
    if files.again(wanted.name) {
        return Ok(true);
    }
    match text_of(alloc, from, wanted)? {
        Some(text) => {
            files.add(alloc, wanted.name, text)?;
            Ok(true)
        }
        None => Ok(false),
    }
}

/// Reads files in order, each name once, up to the first that can't be read. Each may be handed over as often as it is wanted.
pub fn read_wanted<F: Files>(
    alloc: Global,
    from: &mut F,
    all: &[Wanted],
) -> Result<HandedFiles, Memory>
    ensures stand { IfOk result (λ files. All (IsOfWanted (F.holds from.old) all.now) (texts files)) }
    ensures there { IfOk result (λ files. Rose (F.faults from.old) (F.faults from.new) ⊎ AreThere (texts files) all.now) }
    ensures times { IfOk result (λ files. Rose (F.faults from.old) (F.faults from.new) ⊎ AreAsOften files all.now) }
{
    let mut files = HandedFiles::new(alloc);
    for wanted in all {
        if !read_one(alloc, from, &mut files, wanted)? {
            return Ok(files);
        }
    }
    Ok(files)
}
