//! What the words and the files determine of what is due: laws of `command`'s definitions.
//!
//! It has no code. Of the commands that measure and list at most one text is due, and of the others two texts that are due are
//! the same refusal or both answers; of `least` the same one, but for what stays open, and of `check` but for the goal's
//! formula. The definitions are in specs/due_laws/Determined; what is due is defined by `command`. Start at [`laws`].

pub mod laws;
