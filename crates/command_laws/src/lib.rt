//! The modules `made_laws`, `printed_laws`, `due_laws`, `traced_laws`, `replayed_laws`, `report_laws` and
//! `refuted_laws`, none of which stands on one behind it.
//!
//! - [`made_laws`]: What a generation says of all runs.
//! - [`printed_laws`]: What the lines that the program prints say.
//! - [`due_laws`]: What the words and the files determine of what is due.
//! - [`traced_laws`]: What `traces` writes is a trace file of the same runs, whatever query it is measured by.
//! - [`replayed_laws`]: What `traces` writes is accepted by `replay`, beside the same sources and with the same ends.
//! - [`report_laws`]: What the text report of a generation says of each goal.
//! - [`refuted_laws`]: What printed lines together say of all runs.
#![tactic(auto)]

pub mod due_laws;
pub mod made_laws;
pub mod printed_laws;
pub mod refuted_laws;
pub mod replayed_laws;
pub mod report_laws;
pub mod traced_laws;
