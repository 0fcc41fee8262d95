// The run of an input, recorded.
ghost use Rattle.std.specs.Prelude.{IfOk};
ghost use Rattle.suite.specs.Seeking.{HasRun, IsRecordOf};

use crate::sought::Sought;
use c_meaning::Input;
use fq_core::Memory;
use path_runner::PathRecord;
use std::alloc::Global;

/// The run of an input that stays within the bounds, recorded whole.
///
/// # Errors
///
/// Want of memory alone.
pub fn replay(alloc: Global, sought: &Sought, input: &Input) -> Result<PathRecord, Memory>
    requires { HasRun sought.now.goal.given.now input.now }
    ensures { IfOk result (IsRecordOf sought.now.goal.given.now input.now) }
{
    sought.run_of(alloc, input)
}
