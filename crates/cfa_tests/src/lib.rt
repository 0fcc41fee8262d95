//! The tests of `cfa`, in a crate of their own so that `cfa` is proved once.
#![tactic(auto)]

#[cfg(test)]
mod tests;
