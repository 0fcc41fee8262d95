//! The tests of `report`, in a crate of their own so that it is proved once.
#![tactic(auto)]

#[cfg(test)]
mod automaton;
#[cfg(test)]
mod generation;
#[cfg(test)]
mod tests;
