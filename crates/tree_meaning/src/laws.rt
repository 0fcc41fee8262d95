//! Laws of the definitions in specs/. Each function does nothing: its contract is the law.
ghost use Rattle.tree_meaning.specs.Laws.{RestsAreSteady, TurnsSuffice, ValuesAreOfKinds};

/// Where some number of turns is enough, every greater number gives the same end.
pub fn turns_suffice()
    ensures { TurnsSuffice }
{}

/// An expression that fits has a value of its kind, or a trap.
pub fn values_are_of_kinds()
    ensures { ValuesAreOfKinds }
{}

/// What an expression comes to, once its outermost calls, `&&`, `||` and `?:` have their values, does not depend on what
/// calls do.
pub fn rests_are_steady()
    ensures { RestsAreSteady }
{}
