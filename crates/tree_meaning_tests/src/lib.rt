//! The tests of `tree_meaning`: programs with how they end, worked by hand from ISO/IEC 9899:2011.
#![tactic(auto)]

#[cfg(test)]
mod tests;
