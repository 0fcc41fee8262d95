//! The top call: from the words of the command line to the text that is written.
//!
//! `run` does all that the program does, over any files and sinks of `fq_io`. Its one clause says what it wrote by the
//! words, by the bytes that the files held and by the status (`specs/Due.antt`, `specs/Outcome.antt`): for `measure` the report
//! of which goals of the query the inputs cover, for `goals` the list of the goals, for `runs` how the inputs' runs end and
//! which edges they take, for `graph` the automaton of the sources, for `generate` the report of inputs that were made for
//! the goals, for `prove` a certificate that no input covers a goal, or what stands in its place, for `check` whether a
//! certificate refutes a goal, for `bounds` whether an input leaves the bounds, for `prove-bounds` a certificate that none does, or
//! what stands in its place, for `check-bounds` whether a certificate says so, for `least` the least input that covers a goal, for
//! `traces` a file of inputs with the edges of their runs, for `replay` the report of measuring such a file, for `trees` how the
//! inputs' runs end by the meaning of the sources' trees, for `events` what happens in
//! those runs, for `sample` what is found of a large program, and else the line of the
//! refusal that is due.
//!
//! Each stage has a crate: the words `command_words`, the sources' automaton `c_front` and their typed tree `typed_sources`, the
//! query `fql_read`, `predicates` and `goals`, the inputs `input_text`, the runs `path_runner` and `tree_meaning`, their hits
//! `measurer`, made inputs and reduced suites `suite`, over `unwinder`, `goal_formula` and `search`, certificates `certificate`
//! and `derivation_check`, the program of `sample` `sample`, the printed texts `report`. Each command has a module by its word
//! (`samples` and `goal_list` for `sample` and `goals`, whose words are crates), with one call that answers what is due. What
//! a stage gives keeps what holds of it on its type (types.rt, `suite_problem`). Start at [`run`] in command.rt.
//!
//! It has these modules too:
//!
//! - [`fshell_core`]: The program, but for the system.
#![tactic(auto)]

mod bounds;
mod certificate_file;
mod check;
mod check_bounds;
mod command;
mod comparison;
mod difference;
mod entry;
mod events;
pub mod fshell_core;
mod generate;
mod goal_list;
mod graph;
mod inputs;
pub mod laws;
mod least;
mod measure;
mod prove;
mod query;
mod refusal;
mod replay;
mod reply;
mod runs;
mod samples;
mod session;
mod sources;
mod status;
mod traces;
mod trees;
mod types;

pub use command::run;
pub use status::Status;
