//! Patterns that are a row of letters with gaps between, and where they match a path.
//!
//! The arrow of the query language stands for any number of any edges between two expressions, and a repetition of a filter
//! for a number of its edges. Such a repetition is a gap: it goes from a state up to the next edge outside its set, as far as
//! its greatest number of edges lets it. So a pattern matches from a state where the part before its first gap does, and what
//! stands behind the gap matches from a state that the gap reaches. Start at [`GapWord`], which is made of a pattern once and
//! is then asked about paths, each with tables of the places of its edges and nodes and of where gaps begin ([`PathPlaces`]),
//! so that no automaton has to go along the path. Words and paths name the sets of gaps by their places in [`GapSets`], so
//! that a path has one table for each set, however many words have a gap of it. The definitions are in specs/gap_words/Walks.antt. The
//! layer above uses the contracts of [`GapWord::of`] and [`GapWord::has_match`]. The crate stands on `patterns` and
//! `occurrences`.

mod gap_sets;
mod gap_word;
mod parts;
mod path_places;
mod piece;
mod spelling;
mod steps;

pub use gap_sets::GapSets;
pub use gap_word::GapWord;
pub use path_places::PathPlaces;
