// What inputs are searched for.
ghost use Rattle.std.specs.Prelude.{◌≤◌};

use crate::planned::Planned;
use c_meaning::Ends;
use unwinder_reach::reached::Bounds;

/// What inputs are searched for: goals from an entry, the bounds of runs, and the ends that count.
#[derive(Drop)]
pub struct Given<'a> {
    pub planned: Planned<'a>,
    pub bounds: Bounds,
    pub ends: Ends,
    ghost some_frame: { 1 ≤ bounds.frames },
    ghost few_answers: { bounds.answers ≤ 256 },
}
