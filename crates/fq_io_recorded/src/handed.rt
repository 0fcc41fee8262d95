// One file that was read, and may be handed over.
ghost use Rattle.std.specs.Prelude.{◌≡◌, ◌+◌, ◌<◌, ◌≤◌, IfOk, OnOk, OnErr, Some, IsFalse};
ghost use Rattle.fq_io_recorded.specs.Answers.{IsAnswer, answer_of};
ghost use Rattle.fq_io_recorded.specs.Times.{more_times};

use fq_core::Name;
use fq_io::FileFault;
use std::alloc::{AllocError, Global};
use std::mem::replace;

/// What was read of a file.
#[derive(Drop)]
pub enum Text {
    /// All its bytes.
    Whole(Vec<u8>),
    /// It has more bytes than this.
    Longer(u64),
}

/// A file that was read, and how often it may be handed over yet. The last time its bytes go, and no copy stays.
#[derive(Drop)]
pub struct Handed {
    pub name: Name,
    pub text: Text,
    pub times: u64,
}

// A copy of the bytes, or the bytes where it is the last time.
fn given(alloc: Global, bytes: &mut Vec<u8>, last: bool) -> Result<Vec<u8>, AllocError>
    ensures ok { IfOk result (λ given. given.items ≡ bytes.old.items) }
    ensures stays { IsFalse last → bytes.new ≡ bytes.old }
    ensures err { OnErr result (bytes.new ≡ bytes.old) }
{
    if last {
        Ok(replace(bytes, Vec::new(alloc)))
    } else {
        bytes.to_vec(alloc)
    }
}

impl Handed {
    /// Hands the bytes over, where there are at most so many.
    pub fn hand(&mut self, alloc: Global, limit: u64) -> Result<Vec<u8>, FileFault>
        ensures answer { IsAnswer result (answer_of limit (Some self.old)) }
        ensures times { OnOk result (self.new.times + 1 ≡ self.old.times) }
        ensures fewer { self.new.times ≤ self.old.times }
        ensures err { OnErr result (self.new ≡ self.old) }
        ensures name { self.new.name ≡ self.old.name }
        ensures text { 0 < self.new.times → self.new.text ≡ self.old.text }
    {
        if self.times == 0 {
            return Err(FileFault::Failed);
        }
        match &mut self.text {
            Text::Longer(most) if limit <= *most => Err(FileFault::TooLong),
            Text::Longer(_) => Err(FileFault::Failed),
            Text::Whole(bytes) if bytes.len() as u64 > limit => Err(FileFault::TooLong),
            Text::Whole(bytes) => {
                let given = given(alloc, bytes, self.times == 1)?;
                self.times -= 1;
                Ok(given)
            }
        }
    }

    /// It may be handed over once more, unless its bytes went already.
    pub fn again(&mut self)
        ensures times { self.new.times ≡ more_times self.old.times }
        ensures name { self.new.name ≡ self.old.name }
        ensures text { self.new.text ≡ self.old.text }
    {
        if self.times > 0 {
            self.times = self.times.saturating_add(1);
        }
    }
}
