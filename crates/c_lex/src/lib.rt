//! Tokens and macros of C (ISO/IEC 9899:2011, 6.4 and 6.10.3): a text is cut into blanks, comments, directive lines and
//! tokens, each token the longest that begins there, and macros are replaced.
//!
//! It stands on `containers`, `fq_core` and `c_values`. The layers above use the contract of `tokens`, which gives the
//! one list of tokens of its texts or refuses the first place at which there is a cause, and the laws `one_reading`,
//! `a_loop_has_no_end` and `numbers_are_values`.
#![tactic(auto)]

mod bytes;
mod constant;
mod directive;
mod expand;
mod foreign;
mod form;
mod laws;
mod lexer;
mod looping;
mod macros;
mod output;
mod piece;
mod position;
mod refuse;
mod table;
mod take;
mod token;

pub use foreign::{is_foreign_mark, is_foreign_word};
pub use laws::{a_loop_has_no_end, numbers_are_values, one_reading};
pub use lexer::{are_small, tokens};
pub use token::{SourceText, Token, TokenKind};
