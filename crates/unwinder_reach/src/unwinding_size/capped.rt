// Sums and products that stop 1 above the limit.
ghost use Rattle.std.specs.Prelude.{◌≡◌, ◌+◌, ◌*◌};
ghost use Rattle.unwinder_reach.specs.unwinding_size.Capped.{capped};

/// The greatest size sum that is accepted.
pub(crate) const MOST_SIZE: u64 = 4_194_304;

const PAST: u64 = MOST_SIZE + 1;

#[tactic(auto, unfolding(crate::specs::unwinding_size::Capped::capped))]
pub(crate) fn cap(number: u64) -> u64
    ensures { result ≡ capped number }
{
    number.min(PAST)
}

#[tactic(auto, unfolding(crate::specs::unwinding_size::Capped::capped))]
pub(crate) fn sum(a: u64, b: u64) -> u64
    ensures { result ≡ capped (a + b) }
{
    a.saturating_add(b).min(PAST)
}

#[tactic(auto, unfolding(crate::specs::unwinding_size::Capped::capped))]
pub(crate) fn product(a: u64, b: u64) -> u64
    ensures { result ≡ capped (a * b) }
{
    a.saturating_mul(b).min(PAST)
}
