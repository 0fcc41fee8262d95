// Files that were read before, each once, and are handed over.
ghost use Rattle.std.specs.Prelude.{◌≡◌, ◌≢◌, ◌+◌, ◌<◌, ◌≤◌, ◌⊎◌, ℕ, List, [], None, Some, IfOk, IfSome, OnOk, OnErr, false, is_some, length, position, vec_len, ◌∷◌, ◌++◌};
ghost use Rattle.std.proofs.Props.{props};
ghost use Rattle.fq_io.specs.declared.files.FileFault.TheVariants as fault;
ghost use Rattle.fq_io.specs.Counts.{Rose, RoseBy, RosePast};
ghost use Rattle.fq_io.specs.Faults.{OnReadFailed, OnTooLong, UnlessReadFailed};
ghost use Rattle.fq_io.specs.MemoryFiles.{content_of};
ghost use Rattle.fq_io_recorded.specs.Answers.{IsAnswer, answer_of};
ghost use Rattle.fq_io_recorded.specs.Handed.{AreAll, AreTold, bytes_told, has_name};
ghost use Rattle.fq_io_recorded.specs.Times.{more_times};

use crate::handed::{Handed, Text};
use fq_core::{Memory, Name};
use fq_io::{FileFault, Files};
use http_server::Log;
use std::alloc::Global;

/// Files that were read before. Each can be read as often as it was wanted; the last time its bytes are handed over, so that they
/// stand nowhere twice. What was read is told all the time, for proofs alone, which takes no memory.
#[derive(Drop)]
pub struct HandedFiles {
    files: Vec<Handed>,
    told: Log<Name, Text>,
    last_failed: Option<Name>,
    faults: u64,
    received: u64,
    ghost are_told: { AreTold files.items told.items } by { Prim.hlevel props },
    ghost are_all: { AreAll files.items told.items } by { Prim.hlevel props },
}

// The place of the first file with this name.
fn place_of(files: &[Handed], name: &[u8]) -> Option<usize>
    ensures { result ≡ position (has_name name.now) files.now }
{
    files.iter().position(|file| file.name.bytes() == name)
}

impl HandedFiles {
    ghost use Rattle.fq_io_recorded.specs.HandedFiles.{file_of, texts, times_of};

    /// No files.
    pub fn new(alloc: Global) -> Self
        ensures told { texts result ≡ [] }
        ensures none { (name : List ℕ) → file_of result name ≡ None }
    {
        HandedFiles {
            files: Vec::new(alloc),
            told: Log::new(),
            last_failed: None,
            faults: 0,
            received: 0,
        }
    }

    // Counts a read of this name that failed.
    fn fail(&mut self, alloc: Global, name: &str) -> FileFault
        ensures failed { result ≡ fault.Failed → Rose self.old.faults self.new.faults }
        ensures failed_name { result ≡ fault.Failed → self.new.last_failed ≡ Some name.now }
        ensures memory { result ≡ fault.Memory → self.new ≡ self.old }
        ensures either { result ≡ fault.Failed ⊎ result ≡ fault.Memory }
        ensures received { self.new.received ≡ self.old.received }
        ensures files { self.new.files ≡ self.old.files }
        ensures told { self.new.told ≡ self.old.told }
    {
        match Name::new(alloc, name.as_bytes()) {
            Ok(name) => {
                self.last_failed = Some(name);
                self.faults = self.faults.saturating_add(1);
                FileFault::Failed
            }
            Err(_) => FileFault::Memory,
        }
    }

    // Hands over the bytes of the first file with this name.
    fn hand(&mut self, alloc: Global, name: &str, limit: u64) -> Result<Vec<u8>, FileFault>
        ensures answer { IsAnswer result (answer_of limit (file_of self.old name.now)) }
        ensures told { self.new.told ≡ self.old.told }
        ensures last { self.new.last_failed ≡ self.old.last_failed }
        ensures faults { self.new.faults ≡ self.old.faults }
        ensures received { self.new.received ≡ self.old.received }
        ensures times { OnOk result (times_of self.new name.now + 1 ≡ times_of self.old name.now) }
        ensures others { (other : List ℕ) → other ≢ name.now → file_of self.new other ≡ file_of self.old other }
        ensures unread { OnErr result (file_of self.new name.now ≡ file_of self.old name.now) }
        ensures bytes { IfOk result (λ bytes. IfSome (content_of (texts self.old) name.now) (λ held. bytes.items ≡ held)) }
        ensures short { IfOk result (λ bytes. vec_len bytes ≤ limit) }
        ensures too_long { OnTooLong result (IfSome (content_of (texts self.old) name.now) (λ held. limit < length held)) }
    {
        match place_of(&self.files, name.as_bytes()) {
            Some(place) => self.files[place].hand(alloc, limit),
            None => Err(FileFault::Failed),
        }
    }
}

impl HandedFiles {
    ghost use Rattle.fq_io_recorded.specs.HandedFiles.{file_of, texts, times_of};

    /// Whether a file has this name, which may then be handed over once more.
    pub(crate) fn again(&mut self, name: &str) -> bool
        ensures there { result ≡ is_some (file_of self.old name.now) }
        ensures told { texts self.new ≡ texts self.old }
        ensures none { result ≡ false → self.new ≡ self.old }
        ensures times { times_of self.new name.now ≡ more_times (times_of self.old name.now) }
        ensures others { (other : List ℕ) → other ≢ name.now → file_of self.new other ≡ file_of self.old other }
    {
        match place_of(&self.files, name.as_bytes()) {
            Some(place) => {
                self.files[place].again();
                true
            }
            None => false,
        }
    }

    /// Puts a file behind the others, which may be handed over once.
    pub(crate) fn add(&mut self, alloc: Global, name: &str, text: Text) -> Result<(), Memory>
        requires { file_of self.old name.now ≡ None }
        ensures ok { OnOk result (texts self.new ≡ texts self.old ++ (name.now, bytes_told text) ∷ []) }
        ensures err { OnErr result (texts self.new ≡ texts self.old) }
        ensures times { OnOk result (times_of self.new name.now ≡ 1) }
        ensures others { (other : List ℕ) → other ≢ name.now → file_of self.new other ≡ file_of self.old other }
    {
        let name = Name::new(alloc, name.as_bytes())?;
        let told = self.told.and(&name, &text);
        self.files.push(Handed {
            name,
            text,
            times: 1,
        })?;
        self.told = told;
        Ok(())
    }
}

impl Files for HandedFiles {
    ghost use Rattle.fq_io_recorded.specs.HandedFiles.{file_of, texts, times_of};

    ghost holds = { λ files. content_of (texts files) };

    ghost last_failed = { λ files. Some files.last_failed };

    ghost faults = { λ files. files.faults };

    ghost received = { λ files. files.received };

    fn read_whole(&mut self, alloc: Global, name: &str, limit: u64) -> Result<Vec<u8>, FileFault>
        ensures bytes { IfOk result (λ bytes. IfSome (content_of (texts self.old) name.now) (λ held. bytes.items ≡ held)) }
        ensures short { IfOk result (λ bytes. vec_len bytes ≤ limit) }

        ensures failed { OnReadFailed result (Rose self.old.faults self.new.faults) }
        ensures failed_name { OnReadFailed result (self.new.last_failed ≡ Some name.now) }

        ensures too_long { OnTooLong result (IfSome (content_of (texts self.old) name.now) (λ held. limit < length held)) }
        ensures too_long_received { OnTooLong result (RosePast limit self.old.received self.new.received) }

        ensures same_last { UnlessReadFailed result (self.new.last_failed ≡ self.old.last_failed) }
        ensures no_fault { UnlessReadFailed result (self.new.faults ≡ self.old.faults) }
        ensures same_files { texts self.new ≡ texts self.old }
        ensures counted { IfOk result (λ bytes. RoseBy (vec_len bytes) self.old.received self.new.received) }
        ensures received_stay { self.old.received ≤ self.new.received }

        // What a read gives stands there, and one that gives the bytes is one of those that were wanted.
        ensures answer { IsAnswer result (answer_of limit (file_of self.old name.now)) }
        ensures times { OnOk result (times_of self.new name.now + 1 ≡ times_of self.old name.now) }
        ensures others { (other : List ℕ) → other ≢ name.now → file_of self.new other ≡ file_of self.old other }
        ensures unread { OnErr result (file_of self.new name.now ≡ file_of self.old name.now) }
    {
        match self.hand(alloc, name, limit) {
            Ok(bytes) => {
                self.received = self.received.saturating_add(bytes.len() as u64);
                Ok(bytes)
            }
            Err(FileFault::TooLong) => {
                self.received = self.received.saturating_add(limit).saturating_add(1);
                Err(FileFault::TooLong)
            }
            Err(FileFault::Failed) => Err(self.fail(alloc, name)),
            Err(FileFault::Memory) => Err(FileFault::Memory),
        }
    }
}
