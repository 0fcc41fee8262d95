//! What the lines that the program prints say: from the bytes back to their meaning, as laws of `command`'s definitions.
//!
//! It has no code. `specs/printed_laws/Bounds` has the lines of `bounds`, `prove-bounds` and `check-bounds`, `specs/printed_laws/Goals` those of `least`,
//! `prove` and `check`, and `specs/printed_laws/Written` joins them with the bytes that a run wrote. The input that a line gives is read from it
//! as a line of inputs is. Start at specs/printed_laws/Bounds.

ghost use Rattle.command_laws.specs.printed_laws.Bounds.{BoundsLinesAreTrue};
ghost use Rattle.command_laws.specs.printed_laws.Goals.{GoalLinesAreTrue};
ghost use Rattle.command_laws.specs.printed_laws.Written.{WrittenIsDue};

/// `bounds suffice` says that no input leaves the bounds, and `bounds left` of an input that it does.
pub fn bounds_lines_are_true()
    ensures { BoundsLinesAreTrue }
{}

/// A line of a goal says its least input, an input that covers it, or that no input does.
pub fn goal_lines_are_true()
    ensures { GoalLinesAreTrue }
{}

/// The bytes that a run wrote with status 0 are those of what was due.
pub fn written_is_due()
    ensures { WrittenIsDue }
{}
