//! The tests of `unwinding_size`, in a crate of their own so that `unwinding_size` is proved once.

#[cfg(test)]
mod tests;
