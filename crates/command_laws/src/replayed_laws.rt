//! What `traces` writes is accepted by `replay`, beside the same sources and with the same ends: a law of `command`'s definitions.
//!
//! It has no code; `specs/replayed_laws/Laws` has the law. It stands on `traced_laws`, which says that the bytes are a trace file, and on
//! `due_laws` for what files that hold the same determine.

ghost use Rattle.command_laws.specs.replayed_laws.Laws.{TracesAreReplayed};

use crate::traced_laws::traces_are_read;
use c_front::laws::one_outcome;

/// `replay` reads what `traces` wrote as the runs that were traced, and measures these, unless it refuses its query.
pub fn traces_are_replayed()
    ensures { TracesAreReplayed }
{
    one_outcome();
    traces_are_read();
}
