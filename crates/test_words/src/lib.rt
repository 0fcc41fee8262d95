//! Words of inputs, the calls of `bit_words` by their operators, and what words are in a world: what the tests and the
//! programs of bench/ that stand on `bit_words` share.
#![tactic(auto)]

mod calls;
mod inputs;
mod readings;

pub use calls::answer;
pub use inputs::{free_pair, free_word, world_of};
pub use readings::{compared, gives, pattern_in, value_in};
