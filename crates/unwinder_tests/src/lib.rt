//! The tests of `unwinder`, in a crate of their own so that `unwinder` is proved once.
#![tactic(auto)]

#[cfg(test)]
mod input_words_tests;
#[cfg(test)]
mod tests;
