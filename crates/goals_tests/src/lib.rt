//! The tests of `goals`: queries with their goals, patterns and refusals over sources, worked by hand.
#![tactic(auto)]

#[cfg(test)]
mod tests;
