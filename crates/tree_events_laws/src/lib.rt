//! The modules `expression_events`, `statement_events` and `event_laws`, none of which stands on one behind it.
//!
//! - [`expression_events`]: That the edges of expressions tell what happens in them.
//! - [`statement_events`]: That the edges of statements tell what happens in them.
//! - [`event_laws`]: Laws of whole runs.
#![tactic(auto)]

pub mod event_laws;
pub mod expression_events;
pub mod statement_events;
