// One goal.
ghost use Rattle.std.specs.Prelude.{◌≤◌, length};

use crate::given::Given;

/// One goal of what is given, by its number from 1.
#[derive(Clone, Copy)]
pub struct Goal<'a> {
    pub given: &'a Given<'a>,
    pub number: u32,
    ghost some: { 1 ≤ number },
    ghost there: { number ≤ length given.now.planned.plan.goals },
}
