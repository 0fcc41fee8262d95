//! The tests of `c_values`, in a crate of their own so that `c_values` is proved once.
#![tactic(auto)]

#[cfg(test)]
mod tests;
