//! Laws of the definitions of `reached` and `unwinding_size`. Each function does nothing: its contract is the law.
ghost use Rattle.unwinder_reach.specs.reached_laws.Laws.{OneCount, OneSize, NotTooMany};

/// Any two lists of the pairs that are reached are as long.
pub fn one_count()
    ensures { OneCount }
{}

/// Any two lists of the pairs that are reached, with their steps, have the same size sum.
pub fn one_size()
    ensures { OneSize }
{}

/// Where the pairs that are reached are at most 50,000, they aren't too many.
pub fn not_too_many()
    ensures { NotTooMany }
{}
