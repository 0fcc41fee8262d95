// Where runs begin.
ghost use Rattle.std.specs.Prelude.{◌≡◌, [], Some, slice_get};
ghost use Rattle.std.proofs.Props.{props};
ghost use Rattle.cfa.specs.Contexts.{IsOnce};

use cfa::{Function, Graph};

/// A function of an automaton at which a run can begin, and its number. No walk over the automaton comes twice to one pair of
/// node and context.
#[derive(Clone, Copy)]
pub struct Entry<'a> {
    pub graph: &'a Graph,
    pub number: u32,
    pub function: &'a Function,
    ghost once: { IsOnce graph.now } by { Prim.hlevel props },
    ghost there: { slice_get graph.now.functions number ≡ Some function.now },
    ghost startable: { function.now.arrays ≡ [] },
}
