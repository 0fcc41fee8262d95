//! The front end: the control flow automaton of C sources.
//!
//! It stands on `c_lex` for tokens, on `c_parse` for the unit that they are, on `c_types` for its types and on `c_lower`
//! for its automaton, and on the laws that join them. The layers above use the contract of [`automaton_of_texts`], which
//! answers the automaton of its texts exactly where they have one and otherwise refuses them for the cause that
//! `specs/Automata.antt` says, and the law of [`laws`]: texts have one outcome. Start at automaton.rt.
//!
//! It has these modules too:
//!
//! - [`typed_sources`]: The typed tree of C sources.
#![tactic(auto)]

mod automaton;
pub mod laws;
pub mod typed_sources;

pub use automaton::automaton_of_texts;
