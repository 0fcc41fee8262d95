//! The tests of `containers`, in a crate of their own so that `containers` is proved once.
#![tactic(auto)]

#[cfg(test)]
mod chains_tests;
#[cfg(test)]
mod tests;
