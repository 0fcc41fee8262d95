//! Programs that are made from a number, and the query for them.
//!
//! It stands on `fq_core` for want of memory. The layers above use that [`program`] answers exactly `program_text`, and
//! [`sample_query`] exactly `query_text` (specs/Sample.antt). Start at texts.rt.
#![tactic(auto)]

mod texts;

pub use texts::{program, sample_query};
