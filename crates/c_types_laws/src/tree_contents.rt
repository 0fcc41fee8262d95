//! What the trees of a unit hold: the numbers and the places of its tokens, and no others.
//!
//! It stands on `c_parse`. The layers above use the definitions of `specs/tree_contents/Contents.antt`, by which a unit's numbers are
//! values of their kinds and its places lie in the files that were read, and the law that a unit has them where its
//! tokens do.

pub mod laws;
