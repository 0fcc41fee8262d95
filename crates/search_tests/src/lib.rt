//! Tests of `search`.
#![tactic(auto)]

#[cfg(test)]
mod formulas;
#[cfg(test)]
mod tests;
