//! The program, but for the system: what it reads of the files that its words name, and what it writes by their bytes.
//!
//! [`read_named`] reads these files, each once, and [`answer`] does what the words ask for over what was read, by `run` of
//! `command`. Its clause speaks of the bytes that were read and of those that the streams took, by the status. Start at
//! answers.rt.

mod answers;
mod named;
mod named_files;

pub use answers::answer;
pub use named_files::read_named;
