//! The tests of `suite`, in a crate of their own so that it is proved once.
#![tactic(auto)]

#[cfg(test)]
mod candidates_tests;
#[cfg(test)]
mod tests;
