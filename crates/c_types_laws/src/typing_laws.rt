//! What follows from the typing rules of `c_type_rules` and `c_types` alone.
//!
//! Each law is the contract of a function with an empty body.

ghost use Rattle.c_types_laws.specs.typing_laws.Laws.{FramesAreApart};

/// The cells of temporaries stand behind those of all locals: the second reading of a body takes as many cells for
/// locals as the first, by which the first temporary's cell is numbered.
pub fn frames_are_apart()
    ensures { FramesAreApart }
{}
