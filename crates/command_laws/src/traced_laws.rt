//! What `traces` writes is a trace file of the same runs, whatever query it is measured by: a law of `command`'s definitions.
//!
//! It has no code; `specs/traced_laws/Laws` has the law. It stands on `trace_file`, whose law says that what is written of traces is read
//! again, and on `printed_laws` for what is known of the sources' automaton.

ghost use Rattle.command_laws.specs.traced_laws.Laws.{TracesAreRead};

use input_text::accepted_texts_fit;

/// The bytes that `traces` writes are a trace file of the runs that were traced, and are refused for nothing.
pub fn traces_are_read()
    ensures { TracesAreRead }
{
    accepted_texts_fit();
}
