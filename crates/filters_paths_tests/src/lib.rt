//! The tests of `filters_paths`, in a crate of their own so that `filters_paths` is proved once.
#![tactic(auto)]

#[cfg(test)]
mod tests;
