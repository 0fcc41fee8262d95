// Events: what happens in a run, in the words of the sources.
use fq_core::{Name, Span, StatementKind};

/// What happened, and where: the innermost statement that was at hand.
#[derive(Drop)]
pub struct Event {
    /// The first token of the statement; of an outcome that of the condition, or the word `case`.
    pub place: Span,
    /// The kind of the statement.
    pub statement: StatementKind,
    pub what: What,
}

/// What happened.
#[derive(Drop)]
pub enum What {
    /// An innermost condition was compared with 0, or the value of a `switch` with that of a `case` (ISO/IEC 9899:2011, 6.8.4.1p2,
    /// 6.8.4.2p5): whether it is true, and whether that settles its decision, of which then nothing more is evaluated.
    Outcome { truth: bool, settles: bool },
    /// A simple statement was done, which changed the variable of this name; or control came to the label of this name.
    Did { name: Option<Name> },
    /// A defined function was called, by its number.
    Entered { function: u32 },
    /// The function that was entered last returned.
    Left,
    /// An input function gave an answer, by its number.
    Answered { input: u32 },
    /// `&&`, `||` or `?:` has its value, or a `switch` has.
    Valued,
    /// Control came to a loop.
    Enters,
    /// A loop goes back to its condition, or to its body.
    Again,
    /// A pass begins of a `for` without a condition.
    Always,
    /// A `switch` without a `case` goes on.
    Straight,
}
