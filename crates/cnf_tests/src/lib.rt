//! Tests of `cnf`.
#![tactic(auto)]

#[cfg(test)]
mod tests;
