//! The tests of `unwinder_reach`, a module for each part of it.
#![tactic(auto)]

#[cfg(test)]
mod reached_tests;
#[cfg(test)]
mod unwinding_size_tests;
