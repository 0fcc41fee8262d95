//! Which goals of a plan recorded runs hit.
//!
//! Start at [`Measurer`], which is made for a plan, and is then given runs. A run hits a goal where its end is counted, a
//! segment of its path matches the goal's pattern and it meets the passing clause (`Hits` of the crate hits). Goals whose
//! words have no quoted letter stand in an index of `word_index`. Of the others a goal whose pattern is a row of letters and
//! gaps, as arrows and repetitions of filters make it, is looked up by `gap_words`, and the rest and the passing clause have an
//! automaton that `run_match` takes along the path. Where a goal's word begins with an edge and its matches may begin anywhere,
//! that is from the first place of this edge on, if the path has one. The layers above use the contracts of the calls of
//! [`Measurer`].
#![tactic(auto)]

mod firsts;
mod known;
mod measurer;
mod openings;
mod others;
mod passing;
mod tables;

pub use measurer::Measurer;
