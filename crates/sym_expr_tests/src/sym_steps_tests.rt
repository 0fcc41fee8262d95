//! The tests of `sym_steps`, in a crate of their own so that `sym_steps` is proved once.

#[cfg(test)]
mod tests;
