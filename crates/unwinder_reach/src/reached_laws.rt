//! Counts of what walks reach within bounds: laws of `reached` and of `unwinding_size`.
//!
//! It has no code. Any two lists of the pairs that are reached, with their steps, are as long and weigh the same, so that a
//! refusal by the number of pairs or by the size sum, and the size of a goal, speak of the automaton, the entry and the
//! bounds alone, and of no list. Start at [`laws`].

pub mod laws;
