//! The reduced suite: which of some inputs hit all goals that some input hits, and none of them is needless.
//!
//! [`reduce`] in reducing.rt gives the numbers of the inputs that are kept, exactly those of specs/Suite.antt (`kept_of`), by
//! the tables of first hits in marking.rt. The laws say that the inputs that are kept hit every goal that some input hits, and
//! that each of them hits a goal that no other of them hits.
#![tactic(auto)]

mod first_hit;
mod hit_lists;
mod laws;
mod marking;
mod reducing;

pub use laws::{kept_are_needed, kept_hit_all};
pub use reducing::reduce;
