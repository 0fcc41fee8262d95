//! The typing of C's expressions (ISO/IEC 9899:2011, 6.3.1, 6.5 and 6.6), and what the typing of statements is made of:
//! rules that say what a form becomes and all that is wrong in it, the names in scope, and the state that follows them.
//!
//! It stands on `c_parse`'s trees, `c_typed_trees`, `cfa`'s variables and the arithmetic of `c_values`. `c_types` stands on
//! [`Typer`]: each of its calls makes what its rule makes, and goes to the state behind that rule. Start at typer.rt.
#![tactic(auto)]

mod cells;
mod constants;
mod expressions;
mod faults;
mod kinds;
pub mod laws;
mod names;
mod parts;
mod scopes;
mod typer;
mod values;

pub use constants::Folded;
pub use faults::Found;
pub use kinds::{left_kind, promotion, right_kind};
pub use parts::{converted_to, no_variable};
pub use scopes::{Bound, Cases, Meaning, Names, ParameterKind, Scopes, Signature};
pub use typer::{Given, Sort, Typer};
pub use values::{expr_of, place_of_typed};
