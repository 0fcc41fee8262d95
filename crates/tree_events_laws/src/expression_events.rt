//! That the edges of expressions tell what happens in them: a law, along the simulation of `expression_laws`.
//!
//! `specs/expression_events/Follows.antt` says what it is that a run does what a meaning says and that its edges tell the events of it, `Flows` what
//! that is for conditions, first parts and calls, and `Laws` has the law. It is the contract of a function with an empty body.

pub mod laws;
