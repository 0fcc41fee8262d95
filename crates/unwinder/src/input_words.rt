//! The inputs of all runs of a function, as words over a circuit.
//!
//! Start at `words.rt`. A circuit whose inputs are the bits of an input of a function describes the runs of all inputs at
//! once: a world of it is a list of bits, which are the function's arguments, each with as many bits as its parameter's
//! kind is wide, and then so many answers of input functions, 64 bits of each. [`inputs`] makes these inputs in a circuit
//! that has no gate, and the words over them. In the world of an input they are the values of its arguments, each as one of
//! its parameter's kind, and its answers, those past the last one 0.
//!
//! The definitions are in specs/: `Worlds` (the world of an input), `Inputs` (words of inputs), `Laws` (what follows of
//! them: [`every_world`] and its like), and for the parts below `Parts`. The crate stands on `bit_words` for words, on
//! `sym_expr` for what lists of them hold in a world, and on `c_meaning` for inputs.

mod laws;
mod words;

pub use laws::{every_world, inputs_stay, truncated_answers, world_lengths};
pub use words::{InputWords, inputs};
