//! The tests of `sym_expr`, in a crate of their own so that `sym_expr` is proved once.
#![tactic(auto)]

#[cfg(test)]
mod sym_steps_tests;
#[cfg(test)]
mod tests;
