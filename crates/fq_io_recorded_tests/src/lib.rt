//! The tests of `fq_io_recorded`, in a crate of their own so that `fq_io_recorded` is proved once.
#![tactic(auto)]

#[cfg(test)]
mod tests;
