//! Sets of literals, as tables with a mark for each literal that has a place.
//!
//! It stands on `cnf`. The layers above use that each call reads or changes the set that a table marks (`marked`,
//! specs/literal_marks/Marks.antt) as its name says. A literal's place is its key, or, where that table would be large beside what is
//! marked, where a binary search finds it among those that occur ([`Places`]). No call takes memory. Start at marks.rt.

mod marks;
mod places;
mod resolving;

pub use marks::{
    all_marked, any_marked, clear, is_marked, mark, mark_all, mark_others, unmark, unmark_all,
};
pub use places::Places;
pub use resolving::resolve_marked;
