//! The tokens of FQL queries: a query is cut into blanks and tokens, each token as long as it goes on, and its length
//! and its open brackets are held against their limits.
//!
//! It stands on `containers` and `fq_core`. The layers above use the contract of `query_tokens`, which answers the one
//! list of tokens of a query or refuses it for its cause, and the law `one_cutting`.
#![tactic(auto)]

mod bytes;
mod cut;
mod first;
mod laws;
mod limits;
mod refuse;
mod spelling;
mod token;
mod tokens;

pub use laws::one_cutting;
pub use refuse::refusal;
pub use spelling::is_written;
pub use token::{FilterName, Keyword, Mark, Sign, Token};
pub use tokens::query_tokens;
