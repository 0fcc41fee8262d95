// The files that the words name.
ghost use Rattle.std.specs.Prelude.{◌≡◌, ◌≤◌, ◌<◌, ◌^◌, IfOk, IfErr, OnOk, length, vec_len};
ghost use Rattle.fq_core.specs.declared.refusal.Place.TheVariants as place;
ghost use Rattle.c_lex.specs.Lexed.{AreSmall};
ghost use Rattle.tree_meaning.specs.Running.{FitUnit};
ghost use Rattle.command_words.specs.Request.{texts_at};
ghost use Rattle.command.specs.Reads.{Sees, reads};
ghost use Rattle.fq_core.specs.Refusals.{IfRefused};
ghost use Rattle.command.specs.Calls.{AreTreesAs, HaveAutomatonAs, HaveTreesAs};
ghost use Rattle.command.specs.Sources.{AreRead, IsRead, IsReadUpTo, IsUnread, most_source};

use crate::types::{Automaton, Trees};
use c_front::automaton_of_texts;
use c_front::typed_sources::lowered_of_texts;
use c_lex::SourceText;
use containers::Vector;
use fq_core::{Fault, Name, Place, Refusal};
use fq_io::{FileFault, Files};
use std::alloc::Global;

const MOST_SOURCE_BYTES: u64 = 4_194_304;

fn file_refusal(code: u16, name: Name) -> Fault
    ensures { IfRefused result (λ refusal.
        refusal ≡ record { code = code; place = place.FileName name }) }
{
    Fault::Refused(Refusal {
        code,
        place: Place::FileName { name },
    })
}

/// Reads a file that may have so many bytes.
pub fn read<F: Files>(
    alloc: Global,
    files: &mut F,
    file: &str,
    limit: u64,
) -> Result<Vec<u8>, Fault>
    ensures held { IfOk result (λ bytes. Sees (F.holds files.old) file.now bytes.items) }
    ensures short { IfOk result (λ bytes. vec_len bytes ≤ limit) }
    ensures unread { IfErr result (λ fault. IfRefused fault
        (IsUnread (reads F.Files files.old files.new) limit file.now)) }
    ensures same_files { F.holds files.new ≡ F.holds files.old }
    ensures no_fault { OnOk result (F.faults files.new ≡ F.faults files.old) }
    ensures received { F.received files.old ≤ F.received files.new }
{
    let name = Name::new(alloc, file.as_bytes())?;
    match files.read_whole(alloc, file, limit) {
        Ok(bytes) => Ok(bytes),
        Err(FileFault::TooLong) => Err(file_refusal(16, name)),
        Err(FileFault::Failed) => Err(file_refusal(7, name)),
        Err(FileFault::Memory) => Err(Fault::Memory),
    }
}

// Reads a source.
fn read_source<F: Files>(alloc: Global, files: &mut F, file: &str) -> Result<SourceText, Fault>
    ensures read { IfOk result (λ text. IsRead (F.holds files.old) file.now text) }
    ensures unread { IfErr result (λ fault. IfRefused fault
        (IsUnread (reads F.Files files.old files.new) most_source file.now)) }
    ensures same_files { F.holds files.new ≡ F.holds files.old }
    ensures no_fault { OnOk result (F.faults files.new ≡ F.faults files.old) }
    ensures received { F.received files.old ≤ F.received files.new }
{
    let name = Name::new(alloc, file.as_bytes())?;
    let bytes = read(alloc, files, file, MOST_SOURCE_BYTES)?;
    Ok(SourceText {
        name,
        bytes: Vector::from_vec(bytes),
    })
}

// Reads sources in order, up to the first that can't be read.
fn read_sources<F: Files>(
    alloc: Global,
    files: &mut F,
    names: &[&str],
) -> Result<Vec<SourceText>, Fault>
    ensures read { IfOk result (λ texts.
        AreRead (F.holds files.old) (texts_at names.now) texts.items) }
    ensures unread { IfErr result (λ fault. IfRefused fault
        (IsReadUpTo (reads F.Files files.old files.new) (texts_at names.now))) }
    ensures same_files { F.holds files.new ≡ F.holds files.old }
    ensures no_fault { OnOk result (F.faults files.new ≡ F.faults files.old) }
    ensures received { F.received files.old ≤ F.received files.new }
{
    let mut texts = Vec::new(alloc);
    for name in names {
        let text = read_source(alloc, files, name)?;
        texts.push(text)?;
    }
    Ok(texts)
}

/// The automaton of the sources in these files.
pub fn automaton<F: Files>(alloc: Global, files: &mut F, names: &[&str]) -> Result<Automaton, Fault>
    ensures answer { HaveAutomatonAs (reads F.Files files.old files.new)
        (texts_at names.now) result }
    ensures same_files { F.holds files.new ≡ F.holds files.old }
    ensures no_fault { OnOk result (F.faults files.new ≡ F.faults files.old) }
    ensures received { F.received files.old ≤ F.received files.new }
{
    // A source's number has 32 bits.
    if names.len() > u32::MAX as usize {
        return Err(Fault::Memory);
    }
    let texts = read_sources(alloc, files, names)?;
    let graph = automaton_of_texts(alloc, &texts)?;
    Ok(Automaton { graph })
}

// The automaton of texts, and their typed tree.
fn trees_of_texts(alloc: Global, texts: &[SourceText]) -> Result<Trees, Fault>
    requires files { length texts.now < 2 ^ 32 }
    requires sizes { AreSmall texts.now }
    ensures answer { AreTreesAs texts.now result }
    ensures fits { IfOk result (λ trees. FitUnit trees.typed) }
{
    let (typed, graph) = lowered_of_texts(alloc, texts)?;
    Ok(Trees {
        automaton: Automaton { graph },
        typed,
    })
}

/// Reads the sources in these files: their automaton, and their typed tree.
pub fn read_trees<F: Files>(alloc: Global, files: &mut F, names: &[&str]) -> Result<Trees, Fault>
    ensures answer { HaveTreesAs (reads F.Files files.old files.new) (texts_at names.now) result }
    ensures fits { IfOk result (λ trees. FitUnit trees.typed) }
    ensures same_files { F.holds files.new ≡ F.holds files.old }
    ensures no_fault { OnOk result (F.faults files.new ≡ F.faults files.old) }
    ensures received { F.received files.old ≤ F.received files.new }
{
    // A source's number has 32 bits.
    if names.len() > u32::MAX as usize {
        return Err(Fault::Memory);
    }
    let texts = read_sources(alloc, files, names)?;
    trees_of_texts(alloc, &texts)
}
