// Copies of symbolic states.
ghost use Rattle.std.specs.Prelude.{◌≡◌, IfOk};

use cfa::Frame;
use containers::{TryClone, Vector};
use std::alloc::{AllocError, Global};
use sym_expr::SymStore;
use sym_expr::sym_steps::SymState;

fn copied_frames(alloc: Global, frames: &[Frame]) -> Result<Vector<Frame>, AllocError>
    ensures { IfOk result (λ copy. copy ≡ frames.now) }
{
    let mut copy = Vector::new(alloc);
    for frame in frames {
        let arrays = frame.arrays.try_clone(alloc)?;
        copy.push(Frame {
            call: frame.call,
            base: frame.base,
            arrays,
        })?;
    }
    Ok(copy)
}

/// The same state, which shares the words of its cells.
pub(crate) fn copied(alloc: Global, state: &SymState) -> Result<SymState, AllocError>
    ensures { IfOk result (λ copy. copy ≡ state.now) }
{
    let frames = copied_frames(alloc, &state.frames)?;
    let cells = state.store.cells.share()?;
    Ok(SymState {
        node: state.node,
        frames,
        store: SymStore { cells },
        taken: state.taken,
    })
}
