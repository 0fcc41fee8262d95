// Frames by number.
ghost use Rattle.std.specs.Prelude.{◌≡◌, ℕ, [], ◌∷◌, List, IfOk, OnOk};
ghost use Rattle.cfa.specs.declared.parts.GraphParts.{GraphParts};
ghost use Rattle.cfa.specs.Contexts.{FrameContext, Context, along, callers_of};
ghost use Rattle.unwinder_reach.specs.reached.Searching.{AreNumbered, Extends};

use crate::reached::key::entry_of;
use crate::reached::keys::Keys;
use crate::reached::pair::CallFrame;
use cfa::{Edge, Operation};
use containers::chains::Chain;
use fq_core::Memory;
use std::alloc::Global;

// The number of frames, from that of their callers. Their entry is added where it isn't there.
fn number_of(
    alloc: Global,
    table: &mut Keys,
    callers: u32,
    frames: &Chain<CallFrame>,
) -> Result<u32, Memory>
    ensures number { IfOk result (λ n. AreNumbered table.old (callers_of frames.now) callers → AreNumbered table.new frames.now n) }
    ensures extends { OnOk result (Extends table.old table.new) }
{
    match frames.split() {
        None => Ok(0),
        Some((frame, _)) => {
            let entry = entry_of(alloc, callers, frame)?;
            let place = table.place(entry)?;
            if place >= u32::MAX as usize {
                return Err(Memory);
            }
            Ok(place as u32 + 1)
        }
    }
}

// The number of the callers of frames.
fn callers_number(table: &Keys, number: u32) -> u32
    ensures { (frames : List FrameContext) → AreNumbered table.now frames number → AreNumbered table.now (callers_of frames) result }
{
    if number == 0 {
        return 0;
    }
    table.first_word(number as usize - 1)
}

/// The number of the frames after an edge, from that of those before it.
pub(crate) fn number_along(
    alloc: Global,
    table: &mut Keys,
    edge: &Edge,
    number: u32,
    frames: &Chain<CallFrame>,
) -> Result<u32, Memory>
    ensures number { IfOk result (λ n. (parts : GraphParts) (at : ℕ) (c : Context) → AreNumbered table.old c.frames number → frames.now ≡ (along parts at edge.now c).frames → AreNumbered table.new frames.now n) }
    ensures extends { OnOk result (Extends table.old table.new) }
{
    match &edge.operation {
        Operation::Return { .. } => Ok(callers_number(table, number)),
        Operation::Call { .. } => number_of(alloc, table, number, frames),
        _ => {
            let callers = callers_number(table, number);
            number_of(alloc, table, callers, frames)
        }
    }
}

/// The number of the first frame.
pub(crate) fn first_number(
    alloc: Global,
    table: &mut Keys,
    frames: &Chain<CallFrame>,
) -> Result<u32, Memory>
    ensures number { IfOk result (λ n. (frame : FrameContext) → frames.now ≡ frame ∷ [] → AreNumbered table.new frames.now n) }
    ensures extends { OnOk result (Extends table.old table.new) }
{
    number_of(alloc, table, 0, frames)
}
