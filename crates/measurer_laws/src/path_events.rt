//! Laws of recorded runs: what the edges of a record tell, up to the end of its run or a limit of edges, is what happens by the
//! trees.
//!
//! `specs/path_events/Laws.antt` has them. They stand on the laws of whole runs (`event_laws`); the record is that of `path_runner`.

pub mod laws;
