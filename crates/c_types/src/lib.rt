//! The typing of C (ISO/IEC 9899:2011, 6.2.1, 6.3.1 and 6.5 to 6.9): a unit becomes a typed tree, in which each name is
//! tied to what it stands for, each expression carries its kind and each conversion is written out.
//!
//! It stands on `c_parse`'s trees and on the rules and the state of `c_type_rules`. The layers above use the
//! contracts of [`check`], which answers the typed tree of a unit exactly where nothing is wrong in it and otherwise
//! refuses the first fault, and of [`type_expression`], which types one expression in a scope by the same rules. Start
//! at typed_unit.rt.
#![tactic(auto)]

mod around;
mod declarations;
mod functions;
mod globals;
mod parameters;
mod places;
mod program;
mod scoped;
mod statements;
mod switches;
mod typed_unit;
mod units;

pub use scoped::type_expression;
pub use typed_unit::check;
