//! Tests of `derivation_check` and `certificate`, alone and together.
#![tactic(auto)]

#[cfg(test)]
mod tests;
