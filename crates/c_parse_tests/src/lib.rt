//! The tests of `c_parse`, in a crate of their own so that `c_parse` is proved once.
#![tactic(auto)]

#[cfg(test)]
mod tests;
