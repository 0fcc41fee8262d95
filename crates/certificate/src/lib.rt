//! Certificates: a formula and a derivation over it as text.
//!
//! It stands on `cnf`. `write_certificate` gives the one text of a formula and a derivation, and `read_certificate`
//! answers Ok exactly where the bytes are such a text, and else names the first line that isn't allowed. `compare`
//! tells what differs first in two formulas. Start at read.rt and write.rt.
#![tactic(auto)]

mod clause_row;
mod difference;
mod heads;
mod laws;
mod line_row;
mod numbers;
mod read;
mod row;
mod stop;
mod write;

pub use difference::{Difference, compare};
pub use laws::{bad_lines_are_no_certificate, one_pair_per_text};
pub use read::read_certificate;
pub use write::write_certificate;
