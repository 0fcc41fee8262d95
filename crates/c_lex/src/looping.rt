// Whether a word is met within its own replacement (ISO/IEC 9899:2011, 6.10.3.4p2).
ghost use Rattle.std.specs.Prelude.{◌≡◌, ◌<◌, ◌∷◌, length, reverse, IfOk};
ghost use Rattle.c_lex.specs.Macros.{LoopsOrEnds, list_at};
ghost use Rattle.c_lex.specs.Searching.{TurnTaken};
ghost use Rattle.c_lex.specs.Table.{IsIndexed};

use crate::expand::{Frame, frame_token};
use crate::table::Table;
use std::alloc::{AllocError, Global};

/// How far the search has come with a macro.
#[derive(Clone, Copy, Debug)]
pub enum Mark {
    /// Its word wasn't met yet.
    New,
    /// Its list is being read.
    Open,
    /// Its list was read, and its replacement has an end.
    Done,
}

// Reads the next token of the frame that was popped, and says whether it is the word of an open macro. A new macro is
// opened above, and a macro whose list is read is done.
fn search_on(
    table: &Table,
    frame: Frame,
    marks: &mut [Mark],
    frames: &mut Vec<Frame>,
) -> Result<bool, AllocError>
    requires indexed { IsIndexed table.now }
    requires lengths { length marks.old ≡ length table.now.macros.items }
    requires index { frame.index < length marks.old }
    ensures { TurnTaken table.now.macros.items marks.old (frame ∷ reverse frames.old.items) marks.new (reverse frames.new.items) result }
{
    let Some(next) = frame_token(table.macros.as_slice(), frame) else {
        marks[frame.index] = Mark::Done;
        return Ok(false);
    };
    frames.push(Frame {
        index: frame.index,
        at: frame.at + 1,
    })?;
    let Some(index) = table.index_of(&next.text) else {
        return Ok(false);
    };
    match marks[index] {
        Mark::Open => return Ok(true),
        Mark::Done => {}
        Mark::New => {
            marks[index] = Mark::Open;
            frames.push(Frame { index, at: 0 })?;
        }
    }
    Ok(false)
}

/// Whether the replacement of the macro at an index meets a word that is met within its own replacement. If not, it has
/// an end. Each macro's list is read once at most.
pub fn loops(alloc: Global, table: &Table, index: usize) -> Result<bool, AllocError>
    requires indexed { IsIndexed table.now }
    requires index { index < length table.now.macros.items }
    ensures { IfOk result (λ b. LoopsOrEnds table.now.macros.items (list_at table.now.macros.items index) b) }
{
    let mut marks = vec![in alloc; Mark::New; table.macros.len()]?;
    marks[index] = Mark::Open;
    let mut frames = Vec::new(alloc);
    frames.push(Frame { index, at: 0 })?;
    'turns: while let Some(frame) = frames.pop() {
        if search_on(table, frame, marks.as_mut_slice(), &mut frames)? {
            return Ok(true);
        }
    }
    Ok(false)
}
