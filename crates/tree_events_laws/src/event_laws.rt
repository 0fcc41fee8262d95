//! Laws of whole runs: what the edges of a run tell is what happens by the trees, for every accepted unit, entry and input.
//!
//! `specs/event_laws/Laws.antt` has them, and `specs/event_laws/Happens.antt` what follows for tests of events. They stand on the law of statements (`statement_events`), by induction on calls within calls.

pub mod laws;
