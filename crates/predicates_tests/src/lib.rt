//! The tests of `predicates`: texts beside an automaton with their expressions and refusals, worked by hand.
#![tactic(auto)]

#[cfg(test)]
mod tests;
