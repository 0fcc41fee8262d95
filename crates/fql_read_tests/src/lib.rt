//! The tests of `fql_tokens` and `fql_read`, in a crate of their own so that these are proved once.
#![tactic(auto)]

#[cfg(test)]
mod tests;
