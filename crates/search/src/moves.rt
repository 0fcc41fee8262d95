// The moves of the search machine.
use cnf::DerivationLine;
use containers::{Boxed, TryClone, Vector};
use std::alloc::{AllocError, Global};

/// A move of the search machine, which keeps a trail of literals, each decided or implied by a clause, and learned
/// clauses (as in MiniSat). Clauses are numbered from 1, the formula's first, then the learned ones.
#[derive(Drop)]
pub enum Move {
    /// The one open literal of a clause, all others of which are false, is put on the trail as implied by the clause.
    Propagate {
        clause: u32,
    },
    /// An open literal is put on the trail as decided.
    Decide {
        literal: i32,
    },
    /// A clause is false, and one that follows from it is learned. The trail is cut before one of its decided
    /// literals, by its place from 0, and the learned clause's one open literal is put on it.
    Jump {
        line: Boxed<DerivationLine>,
        cut: u32,
    },
}

/// What a search keeps of a move while it runs: the line that a jump learned stands among the learned ones.
#[derive(Clone, Copy)]
pub(crate) enum Step {
    Propagate { clause: u32 },
    Decide { literal: i32 },
    Jump { cut: u32 },
}

/// Moves from the empty trail on.
#[derive(Drop)]
pub struct History {
    pub moves: Vector<Move>,
}

impl TryClone for Move {
    fn try_clone(&self, alloc: Global) -> Result<Move, AllocError> {
        match self {
            Move::Propagate { clause } => Ok(Move::Propagate { clause: *clause }),
            Move::Decide { literal } => Ok(Move::Decide { literal: *literal }),
            Move::Jump { line, cut } => {
                let line = line.try_clone(alloc)?;
                Ok(Move::Jump { line, cut: *cut })
            }
        }
    }
}

impl TryClone for History {
    fn try_clone(&self, alloc: Global) -> Result<History, AllocError> {
        let moves = self.moves.try_clone(alloc)?;
        Ok(History { moves })
    }
}
