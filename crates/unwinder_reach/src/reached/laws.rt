//! Laws of the definitions in specs/. Each function does nothing: its contract is the law.
ghost use Rattle.unwinder_reach.specs.reached.Laws.{EachIsListed};

/// Each pair that is reached within the bounds is in the list of those that are.
pub fn each_is_listed()
    ensures { EachIsListed }
{}
