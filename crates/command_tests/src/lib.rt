//! The tests of `command`, in a crate of their own so that `command` is proved once.
#![tactic(auto)]

#[cfg(test)]
mod reaching;
#[cfg(test)]
mod searching;
#[cfg(test)]
mod tests;
