//! Laws of the definitions in specs/. Each function does nothing: its contract is the law.
ghost use Rattle.search_checked.specs.Laws.{ChecksArePairs};

/// A certificate can write a formula and a derivation that checks over it, where the literals of clauses rise and clauses
/// and lines are few enough to be numbered in 32 bits.
pub fn checks_are_pairs()
    ensures { ChecksArePairs }
{}
