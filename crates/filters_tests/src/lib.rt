//! The tests of `filters`, in a crate of their own so that `filters` is proved once.
#![tactic(auto)]

#[cfg(test)]
mod tests;
