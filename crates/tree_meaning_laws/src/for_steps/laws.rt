//! A law of the syntax and of the typing rules. The function does nothing: its contract is the law.
ghost use Rattle.tree_meaning_laws.specs.for_steps.Laws.{UnitsHaveSteps};

/// What follows the passes of each `for` of a unit is an assignment or a call.
pub fn units_have_steps()
    ensures { UnitsHaveSteps }
{}
