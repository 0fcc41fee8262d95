//! Symbolic steps: what comes next of a state whose cells are words of bits, in all worlds at once.
//!
//! Start at `stepping.rt`. A symbolic state has a node, frames and a number of answers taken, which are the same in all
//! worlds, and words for cells, so that it is a state in each world. [`step`] answers the ways on, each with a literal that
//! holds where the run takes it, a literal that holds where a trap ends the run, whether the run has returned, and the
//! state behind the step, which the ways share but for the node. In every world these tell exactly what `c_meaning` says
//! comes next of the state there. The wires used are at most 32 per unit of what the operations that leave the node weigh,
//! and 68 more.
//!
//! It stands on `c_meaning` for the rules of steps, and on `sym_expr` for expressions and stores as words over a circuit.
//! The definitions are in specs/: `Steps` (what a step tells in a world), `Weights` (what operations weigh), and for the
//! parts below `Cells`, `Effects` and `Operated`.

mod cells;
mod effects;
mod operations;
mod returning;
mod starting;
mod state;
mod stepping;

pub use starting::start;
pub use state::{SymState, SymStep, Way};
pub use stepping::step;
