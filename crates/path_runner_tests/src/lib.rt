//! The tests of `path_runner`, in a crate of their own so that `path_runner` is proved once.
#![tactic(auto)]

#[cfg(test)]
mod tests;
