// Tables of numbers that rise.
ghost use Rattle.std.specs.Prelude.{◌≡◌, ◌+◌, ◌<◌, ◌==◌, ℕ, if◌then◌else◌, slice_index, vec_len};
ghost use Rattle.unwinder_reach.specs.unwinding_size.Capped.{capped};

use crate::unwinding_size::capped::sum;

/// Adds to the number at a place.
pub(crate) fn raise(table: &mut Vec<u64>, at: usize, by: u64)
    requires { at < vec_len table.old }
    ensures length { vec_len table.new ≡ vec_len table.old }
    ensures each { (k : ℕ) → slice_index table.new.items k ≡ (if at == k then capped (slice_index table.old.items k + by) else slice_index table.old.items k) }
{
    table[at] = sum(table[at], by);
}
