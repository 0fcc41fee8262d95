// A sink that tells what another one took.
ghost use Rattle.std.specs.Prelude.{◌≡◌, ◌<◌, ◌≤◌, ◌++◌, [], Some, IfOk, IsTrue, length};
ghost use Rattle.std.specs.Io.KnownBytes.{WriteAppends};
ghost use Rattle.fq_io.specs.Counts.{Rose};
ghost use Rattle.fq_io.specs.Faults.{OnWriteFailed, OnWriteMemory, UnlessWriteFailed};
ghost use Rattle.fq_io_recorded.specs.Told.{bytes_of};

use fq_io::{Sink, SinkFault};
use http_server::Log;

/// Passes on what it is given, and tells what the sink behind it took. What it tells is for proofs alone, and takes no memory.
#[derive(Drop)]
pub struct ToldSink<S: Sink> {
    sink: S,
    took: Log<u8, ()>,
}

impl<S: Sink> ToldSink<S> {
    ghost use Rattle.fq_io_recorded.specs.ToldSink.{behind, told};

    /// A sink that has passed on nothing.
    pub fn new(sink: S) -> Self
        ensures behind { behind result ≡ sink }
        ensures told { told result ≡ [] }
    {
        ToldSink {
            sink,
            took: Log::new(),
        }
    }
}

// Adds bytes to what was taken. It does nothing at run time.
fn add_bytes(took: &mut Log<u8, ()>, bytes: &[u8])
    ensures { bytes_of took.new.items ≡ bytes_of took.old.items ++ bytes.now }
{
    for byte in bytes {
        *took = took.and(byte, &());
    }
}

impl<S: Sink> Sink for ToldSink<S> {
    ghost use Rattle.fq_io_recorded.specs.ToldSink.{behind, told};

    ghost taken = { λ sink. Some (told sink) };

    ghost faults = { λ sink. S.faults (behind sink) };

    ghost may_lack_memory = { S.may_lack_memory };

    fn write(&mut self, bytes: &[u8]) -> Result<usize, SinkFault>
        ensures bound { IfOk result (λ n. n ≤ length bytes.now) }
        ensures some { IfOk result (λ n. 0 < length bytes.now → 0 < n) }
        ensures appends { WriteAppends (Some (told self.old)) (Some (told self.new)) result bytes.now }
        ensures failed { OnWriteFailed result (Rose (S.faults (behind self.old)) (S.faults (behind self.new))) }
        ensures no_fault { UnlessWriteFailed result (S.faults (behind self.new) ≡ S.faults (behind self.old)) }
        ensures memory { OnWriteMemory result (IsTrue S.may_lack_memory) }

        // It is what the sink behind it took.
        ensures passed_on { WriteAppends (S.taken (behind self.old)) (S.taken (behind self.new)) result bytes.now }
    {
        let count = self.sink.write(bytes)?;
        add_bytes(&mut self.took, &bytes[..count]);
        Ok(count)
    }
}
