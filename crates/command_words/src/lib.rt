//! What the words of a command line ask for.
//!
//! It stands on `clap`, and on `c_meaning` for the ends that count. The layer above uses the contract of [`request`]: the command that the words are, with its
//! numbers and the defaults of options that aren't used (`specs/Request.antt`, `specs/Reading.antt`), and that they are
//! refused exactly where they are no command; want of memory is the one free answer.
//!
//! `clap` reads the words after the command's name: each is an option, an option's value or a positional, up to the first
//! `--`, and after it each is a positional. That an option is used at most once, and what numbers may be, is tested
//! here. Start at command_line.rt.
#![tactic(auto)]

mod command_line;
mod command_option;
mod matching;
mod reading;
mod requests;

pub use command_line::request;
pub use command_option::CommandOption;
pub use requests::{
    Bounds, Check, CheckBounds, Generate, Goals, Measure, Prove, Refused, Replay, Request, Runs,
    Suffice, Traces,
};
