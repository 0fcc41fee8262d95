//! The tests of `reached`, in a crate of their own so that `reached` is proved once.

#[cfg(test)]
mod tests;
