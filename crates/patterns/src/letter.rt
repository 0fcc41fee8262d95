ghost use Rattle.std.specs.Prelude.{◌≡◌, ◌==◌, IfOk};
ghost use Rattle.std.specs.Int.{bit_at};
ghost use Rattle.patterns.specs.Paths.{edge_in, state_in};

use crate::number_set::NumberSet;
use containers::TryClone;
use std::alloc::{AllocError, Global};

/// One letter of a pattern over paths.
#[derive(Debug, Drop)]
pub enum Letter {
    /// Matches a state alone whose node is one of these.
    Nodes(NumberSet),
    /// Matches one edge that is one of these.
    Edges(NumberSet),
    /// Matches a state alone where the predicate of this number, from 0 to 63, holds.
    Predicate(u32),
    /// Matches a state alone where the predicate of this number doesn't hold: it is false there, out of scope, or traps.
    Absent(u32),
}

impl Letter {
    /// Whether the letter matches this edge.
    pub fn has_edge(&self, edge: u32) -> bool
        ensures { result ≡ edge_in edge self.now }
    {
        match self {
            Letter::Edges(edges) => edges.contains(edge),
            _ => false,
        }
    }

    /// Whether the letter matches a state at this node alone, where bit p of the mask says that predicate p holds.
    pub fn has_state(&self, node: u32, mask: u64) -> bool
        ensures { result ≡ state_in node mask self.now }
    {
        match self {
            Letter::Nodes(nodes) => nodes.contains(node),
            Letter::Edges(_) => false,
            Letter::Predicate(number) => has_bit(mask, *number),
            Letter::Absent(number) => !has_bit(mask, *number),
        }
    }
}

/// Whether a bit, counted from the lowest, is set. There is none past the highest.
#[tactic(auto, using(crate::proofs::Members::no_bit, std::proofs::lemmas::Nat::Bits::shr_and_one))]
fn has_bit(mask: u64, bit: u32) -> bool
    ensures { result ≡ (bit_at mask bit == 1) }
{
    bit < 64 && (mask >> bit) & 1 == 1
}

impl TryClone for Letter {
    fn try_clone(&self, alloc: Global) -> Result<Letter, AllocError> {
        match self {
            Letter::Nodes(nodes) => Ok(Letter::Nodes(nodes.try_clone(alloc)?)),
            Letter::Edges(edges) => Ok(Letter::Edges(edges.try_clone(alloc)?)),
            Letter::Predicate(number) => Ok(Letter::Predicate(*number)),
            Letter::Absent(number) => Ok(Letter::Absent(*number)),
        }
    }
}
