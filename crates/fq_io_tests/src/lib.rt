//! The tests of `fq_io`, in a crate of their own so that `fq_io` is proved once.
#![tactic(auto)]

#[cfg(test)]
mod tests;
