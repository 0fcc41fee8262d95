//! The tests of `c_types`: texts with the typed trees that they have, or the faults for which they are refused, and what
//! expressions are in a scope of the automaton, worked by hand from C11 (ISO/IEC 9899:2011, 6.2.1, 6.3.1 and 6.5 to 6.9).
#![tactic(auto)]

#[cfg(test)]
mod tests;
