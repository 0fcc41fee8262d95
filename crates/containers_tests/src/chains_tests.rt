//! The tests of `chains`, in a crate of their own so that `chains` is proved once.

#[cfg(test)]
mod tests;
