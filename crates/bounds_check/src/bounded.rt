// How far runs go.
ghost use Rattle.std.specs.Prelude.{◌≤◌};

use suite_problem::Entry;
use unwinder_reach::reached::Bounds;

/// An entry, and bounds of the runs from it.
#[derive(Clone, Copy)]
pub struct Bounded<'a> {
    pub entry: Entry<'a>,
    pub bounds: Bounds,
    ghost some_frame: { 1 ≤ bounds.frames },
    ghost few_answers: { bounds.answers ≤ 256 },
}
