//! Trace files: inputs with the edges of their runs, one on a line.
//!
//! It stands on `path_runner` for runs and on `fq_core` for words and refusals. The layers above use that [`read_trace`]
//! answers the traces of a file of the form of specs/Form.antt whose edges are those of the inputs' runs, or the refusal
//! that specs/Reading.antt says; that [`trace_text`] writes the text of specs/Written.antt; and that what it writes is
//! read again with the same runs ([`texts_are_read`]). Start at reading.rt and written.rt.
#![tactic(auto)]

mod form;
mod laws;
mod line;
mod numbers;
mod parts;
mod reading;
mod runs;
mod trace;
mod written;

pub use laws::texts_are_read;
pub use reading::read_trace;
pub use trace::Trace;
pub use written::trace_text;
