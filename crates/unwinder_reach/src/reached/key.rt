// The words by which frames and pairs are found again.
ghost use Rattle.std.specs.Prelude.{◌≡◌, ◌++◌, OnOk, IfOk};
ghost use Rattle.unwinder_reach.specs.reached.Searching.{entry_of, frame_words, key_by};

use crate::reached::pair::{CallFrame, NodeInContext};
use fq_core::Memory;
use std::alloc::Global;

// Adds a frame's words: 0, or 1 and the call, then how many counters there are, and these.
fn add_frame(key: &mut Vec<u32>, frame: &CallFrame) -> Result<(), Memory>
    ensures { OnOk result (key.new.items ≡ key.old.items ++ frame_words frame.now) }
{
    match frame.call() {
        None => key.push(0)?,
        Some(call) => {
            key.push(1)?;
            key.push(call)?;
        }
    }
    let counters = frame.counters();
    if counters.len() > u32::MAX as usize {
        return Err(Memory);
    }
    key.push(counters.len() as u32)?;
    key.extend_from_slice(counters)?;
    Ok(())
}

/// A frame's entry in a table of frames, with the number of its callers.
pub(crate) fn entry_of(alloc: Global, callers: u32, frame: &CallFrame) -> Result<Vec<u32>, Memory>
    ensures { IfOk result (λ entry. entry.items ≡ entry_of callers frame.now) }
{
    let mut entry = Vec::new(alloc);
    entry.push(callers)?;
    add_frame(&mut entry, frame)?;
    Ok(entry)
}

/// The key of a pair whose frames have a number.
pub(crate) fn key_by(alloc: Global, number: u32, pair: &NodeInContext) -> Result<Vec<u32>, Memory>
    ensures { IfOk result (λ key. key.items ≡ key_by number pair.now) }
{
    let mut key = Vec::new(alloc);
    key.push(pair.node())?;
    key.push(pair.taken())?;
    key.push(number)?;
    Ok(key)
}
