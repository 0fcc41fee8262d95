//! What is covered, by the trees: a goal of edges is hit exactly where what its edges tell happens.
//!
//! It has no code. `specs/covered_laws/Covered.antt` has the law of any edges and any test of events, `specs/covered_laws/Conditions.antt` that of a
//! condition at a place, and `specs/covered_laws/Filters.antt` and `specs/covered_laws/Names.antt` those of filters. It stands on `event_laws`, for what
//! the edges of a run tell, and on `hits`, for the goals that a run hits.

pub mod laws;
