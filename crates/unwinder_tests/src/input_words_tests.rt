//! The tests of `input_words`, in a crate of their own so that `input_words` is proved once.

#[cfg(test)]
mod tests;
