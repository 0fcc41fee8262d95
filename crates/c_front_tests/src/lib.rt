//! The tests of `c_front`, in a crate of their own so that `c_front` is proved once.
#![tactic(auto)]

#[cfg(test)]
mod tests;
