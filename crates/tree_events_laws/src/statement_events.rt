//! That the edges of statements tell what happens in them: a law, along the simulation of `statement_laws`.
//!
//! `specs/statement_events/Simulates.antt` says what it is that a run does what a statement means and that its edges tell the events of it, and
//! `Laws` has the law. It is the contract of a function with an empty body.

pub mod laws;
