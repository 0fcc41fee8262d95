// The history of a search, of its steps and the lines that it learned.
ghost use Rattle.std.specs.Prelude.{◌≡◌, ◌+◌, ◌++◌, ◌∷◌, [], IfNone, IfOk, IfSome, length};
ghost use Rattle.search.specs.Steps.{jump_count, move_of, moves_of};

use crate::moves::{History, Move, Step};
use cnf::DerivationLine;
use containers::{Boxed, Vector};
use std::alloc::{AllocError, Global};

// The move of a step that isn't a jump.
fn plain_move(step: &Step) -> Option<Move>
    ensures { result ≡ move_of step.now }
{
    match step {
        Step::Propagate { clause } => Some(Move::Propagate { clause: *clause }),
        Step::Decide { literal } => Some(Move::Decide { literal: *literal }),
        Step::Jump { .. } => None,
    }
}

// Takes the last step away, with its line where it is a jump.
fn last_move(
    alloc: Global,
    steps: &mut Vec<Step>,
    lines: &mut Vector<DerivationLine>,
) -> Result<Option<Move>, AllocError>
    requires { jump_count steps.old.items ≡ length lines.old }
    ensures none { IfOk result (λ last. IfNone last ((steps.old.items ≡ []) × (lines.new ≡ lines.old))) }
    ensures some { IfOk result (λ last. IfSome last (λ move. (jump_count steps.new.items ≡ length lines.new) × (moves_of steps.old.items lines.old ≡ moves_of steps.new.items lines.new ++ move ∷ []) × (length steps.new.items + 1 ≡ length steps.old.items))) }
{
    let Some(step) = steps.pop() else {
        return Ok(None);
    };
    match step {
        Step::Jump { cut } => match lines.pop() {
            Some(line) => {
                let line = Boxed::new(alloc, line)?;
                Ok(Some(Move::Jump { line, cut }))
            }
            None => unreachable!(),
        },
        _ => Ok(plain_move(&step)),
    }
}

// Gives back the room of steps that were taken away, once they are half of those that it was for.
fn give_back(steps: &mut Vec<Step>)
    ensures { steps.new.items ≡ steps.old.items }
{
    if steps.len() < steps.capacity() / 2 {
        steps.shrink_to_fit();
    }
}

/// The moves of these steps, whose jumps learned these lines in turn. The steps leave as the moves come, so that they don't
/// stand twice.
pub(crate) fn history_of(
    alloc: Global,
    steps: Vec<Step>,
    lines: Vector<DerivationLine>,
) -> Result<History, AllocError>
    requires { jump_count steps.items ≡ length lines }
    ensures { IfOk result (λ history. history.moves ≡ moves_of steps.items lines) }
{
    let mut steps = steps;
    let mut lines = lines;
    let mut moves = Vec::with_capacity(alloc, steps.len())?;
    while let Some(last) = last_move(alloc, &mut steps, &mut lines)? {
        moves.push(last)?;
        give_back(&mut steps);
    }
    moves.reverse();
    Ok(History {
        moves: Vector::from_vec(moves),
    })
}
