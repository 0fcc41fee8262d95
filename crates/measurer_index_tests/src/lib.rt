//! The tests of `gap_words` and `occurrences`, in a crate of their own so that they are proved once.
#![tactic(auto)]

#[cfg(test)]
mod tests;
