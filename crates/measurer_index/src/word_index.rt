//! An index of goals by their words, which tells which of them go along a path.
//!
//! Words without quoted letters are sorted, so that those which begin alike stand side by side. From each state of a path one
//! walks along the path as far as some word goes on, with the range of the words that have come so far. A table has the words
//! that begin with each edge and with each node, so that a state at which none begins costs little. An edge, or a node, whose
//! words have no other letter is looked up once for a whole path, and words that begin with a predicate are walked only where
//! the path meets all of their predicates. The definitions are in specs/: `Walks` (when a word goes along a path) and
//! `Numbers` (sets of numbers). The layer above uses the contract of [`WordIndex::add_walks`]: it adds exactly the goals whose
//! words go along the path. The crate stands on `goals` for goals and on `run_match` for paths. Start at index.rt.

mod group;
mod index;
mod letters;
mod numbers;
mod places;
mod possible;
mod ranges;
mod tables;
mod walk;
mod words;

pub use index::WordIndex;
pub use letters::is_plain;
pub use numbers::Numbers;
