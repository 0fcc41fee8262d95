// Traces.
use c_meaning::Input;
use path_runner::PathRecord;

/// A trace: an input, and the record of its run.
#[derive(Debug, Drop)]
pub struct Trace {
    /// The arguments and answers, as words of 64 bits.
    pub input: Input,
    /// The run that is counted, from its first state to its last.
    pub run: PathRecord,
}
