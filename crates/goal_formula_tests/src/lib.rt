//! Tests of `goal_formula`, in a crate of their own so that `goal_formula` is proved once.
#![tactic(auto)]

#[cfg(test)]
mod tests;
