//! The tests of `fq_core`, in a crate of their own so that `fq_core` is proved once.
#![tactic(auto)]

#[cfg(test)]
mod tests;
