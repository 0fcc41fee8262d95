//! The tests of `candidates`, in a crate of their own so that `candidates` is proved once.

#[cfg(test)]
mod tests;
