//! Tests of `search_lemmas`, in a crate of their own so that `search_lemmas` is proved once.
#![tactic(auto)]

#[cfg(test)]
mod circuits;
#[cfg(test)]
mod learned;
#[cfg(test)]
mod tests;
