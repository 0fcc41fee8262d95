//! Tests of `clause_form`.
#![tactic(auto)]

#[cfg(test)]
mod tests;
