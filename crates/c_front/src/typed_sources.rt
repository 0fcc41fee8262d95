//! The typed tree of C sources.
//!
//! It stands on `c_lex` for tokens, on `c_parse` for the unit that they are and on `c_types` for its types, and on what
//! `c_front` calls a unit of texts. The layers above use the contract of [`typed_of_texts`], which answers the typed tree of
//! its texts exactly where they have one and otherwise refuses them for the cause that `specs/typed_sources/Trees.antt` says, that of
//! [`lowered_of_texts`], which answers their automaton beside it, and the law of [`laws`]: texts have one outcome. Start at
//! sources.rt.

pub mod laws;
mod lowered;
mod sources;

pub use lowered::lowered_of_texts;
pub use sources::typed_of_texts;
