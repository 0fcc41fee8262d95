// The size of a goal.
ghost use Rattle.std.specs.Prelude.{◌≡◌, ◌+◌, ◌-◌, ◌*◌, ◌<◌, ◌^◌, ◌↔◌, min, IsTrue};
ghost use Rattle.patterns.specs.Letters.{form};
ghost use Rattle.goal_formula.specs.Sizes.{passing_size, pattern_size, size_of};

use goals::{PassingPattern, Plan};
use patterns::{Letter, Pattern, letters};

/// The greatest size of a goal that has a formula.
const MOST: u64 = 8_388_608;

/// The square of a pattern's letters plus 2, or the greatest u64 where that is greater.
fn pattern_size(pattern: &Pattern<Letter>) -> u64
    ensures { result ≡ min (pattern_size (form pattern.now)) (2 ^ 64 - 1) }
{
    let side = letters(pattern).saturating_add(2);
    side.saturating_mul(side)
}

/// The same of the passing clause, or 0 without one.
fn passing_size(passing: &Option<PassingPattern>) -> u64
    ensures { result ≡ min (passing_size passing.now) (2 ^ 64 - 1) }
{
    match passing {
        None => 0,
        Some(passing) => pattern_size(&passing.pattern),
    }
}

/// Whether a goal of this pattern is too large over so many pairs of node and context.
pub(crate) fn is_too_large(plan: &Plan, pattern: &Pattern<Letter>, pairs: u32) -> bool
    ensures { IsTrue result ↔ (8388608 < size_of plan.now (form pattern.now) pairs) }
{
    let sides = pattern_size(pattern).saturating_add(passing_size(&plan.passing));
    sides.saturating_mul(pairs as u64) > MOST
}
