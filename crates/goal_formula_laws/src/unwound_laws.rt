//! What the entries of an unwinding say of inputs that leave its bounds.
//!
//! It has no code. It stands on `unwinder` for entries and on `run_laws` for inputs that leave bounds, and the layer that
//! shows that bounds suffice cites it.

ghost use Rattle.goal_formula_laws.specs.unwound_laws.Laws.{NoneHasEnded};

/// Where any end counts, an input leaves the bounds exactly where no entry that holds in its world has ended there.
pub fn none_has_ended()
    ensures { NoneHasEnded }
{}
