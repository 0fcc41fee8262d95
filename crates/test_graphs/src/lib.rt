//! Graphs that the tests of several crates read: tables, and small programs written out by hand.
#![tactic(auto)]

pub mod draft;
pub mod worked;
