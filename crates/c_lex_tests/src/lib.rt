//! The tests of `c_lex`, in a crate of their own so that `c_lex` is proved once.
#![tactic(auto)]

#[cfg(test)]
mod tests;
