//! The modules `occurrences`, `gap_words` and `word_index`, none of which stands on one behind it.
//!
//! - [`occurrences`]: Where numbers stand in a list.
//! - [`gap_words`]: Patterns that are a row of letters with gaps between, and where they match a path.
//! - [`word_index`]: An index of goals by their words, which tells which of them go along a path.
#![tactic(auto)]

pub mod gap_words;
pub mod occurrences;
pub mod word_index;
