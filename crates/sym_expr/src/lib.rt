//! Expressions over words of bits: the value of an expression of C as literals of a circuit.
//!
//! [`translate`] makes the word that an expression comes to and a literal that says whether its evaluation doesn't trap.
//! In every world the two tell exactly what `cfa` says of the expression's value over the cells that the store's words
//! are in that world. [`put`] puts a word into the store at a place, and answers a literal that says whether the place
//! names a cell; in every world the cells are then what an assignment makes of them. The wires used are at most 31 per
//! unit of the weight of the expression or the place, which specs/Weights.antt defines. It stands on `bit_words` for the operations on words, on `cfa` for expressions and their values, and on
//! `circuit`. Start at translation.rt.
//!
//! It has these modules too:
//!
//! - [`sym_steps`]: Symbolic steps.
#![tactic(auto)]

mod conditions;
mod elements;
mod operators;
mod patterns;
mod store;
pub mod sym_steps;
mod translation;
mod writes;

pub use conditions::condition;
pub use elements::array_start;
pub use store::{SymStore, is_same_word};
pub use translation::translate;
pub use writes::put;
