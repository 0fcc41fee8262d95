// What generation has made so far.
ghost use Rattle.std.specs.Prelude.{◌≡◌, IfOk};
ghost use Rattle.measurer.specs.Measurers.{IsMadeFor};
ghost use Rattle.suite.specs.Progress.{nothing, so_far};

use c_meaning::Input;
use c_values::Kind;
use containers::Vector;
use fq_core::Memory;
use goals::{Answer, Plan};
use measurer::Measurer;
use std::alloc::Global;

/// The answers of the first goals of a plan, the inputs that were made for them, and what these hit.
#[derive(Drop)]
pub struct Making {
    pub(crate) measurer: Measurer,
    pub(crate) answers: Vector<Answer>,
    pub(crate) inputs: Vector<Input>,
    pub(crate) taken: Vector<Vector<(Kind, u64)>>,
}

/// What is made before the first goal.
pub(crate) fn nothing_made(alloc: Global, plan: &Plan) -> Result<Making, Memory>
    ensures plan { IfOk result (λ making. IsMadeFor plan.now making.measurer) }
    ensures nothing { IfOk result (λ making. so_far making ≡ nothing) }
{
    Ok(Making {
        measurer: Measurer::new(alloc, plan)?,
        answers: Vector::new(alloc),
        inputs: Vector::new(alloc),
        taken: Vector::new(alloc),
    })
}
