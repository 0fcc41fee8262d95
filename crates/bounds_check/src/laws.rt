//! What follows where bounds suffice. Each function does nothing: its contract is the law.
ghost use Rattle.bounds_check.specs.Laws.{DerivationsSuffice, UnhitIsUnreachable};

/// Where no input leaves the bounds, a goal that no input hits within them is hit by no input's run at all, whatever its
/// length and whatever ends count. So a goal that is refuted within bounds that suffice is unreachable.
pub fn unhit_is_unreachable()
    ensures { UnhitIsUnreachable }
{}

/// A derivation that checks over a formula whose models are the inputs that leave the bounds shows that no input leaves them.
pub fn derivations_suffice()
    ensures { DerivationsSuffice }
{}
