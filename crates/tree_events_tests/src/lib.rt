//! The tests of `edge_events`, in a crate of their own so that `edge_events` is proved once.
#![tactic(auto)]

#[cfg(test)]
mod tests;
