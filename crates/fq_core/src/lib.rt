//! What every layer speaks of: places in a source, names, refusals with their codes, and words.
//!
//! It stands on `containers`. The layers above use that `code_name` gives the name of each code, and that
//! `word_of` gives the number of a decimal text modulo 2^64.
#![tactic(auto)]

mod code;
mod memory;
mod name;
mod refusal;
mod span;
mod statement_kind;
mod word;

pub use code::code_name;
pub use memory::Memory;
pub use name::Name;
pub use refusal::{Fault, Place, Refusal};
pub use span::Span;
pub use statement_kind::StatementKind;
pub use word::{WordText, word_of};
