// Laws of the definition of the reduced suite. Each function does nothing: its contract is the law.
ghost use Rattle.suite_reduction.specs.Laws.{KeptAreNeeded, KeptHitAll};

/// The reduced suite hits each goal that some input hits.
pub fn kept_hit_all()
    ensures { KeptHitAll }
{}

/// The reduced suite is irredundant: each of its inputs hits a goal that no other of them hits.
pub fn kept_are_needed()
    ensures { KeptAreNeeded }
{}
