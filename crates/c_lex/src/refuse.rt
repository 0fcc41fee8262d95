// Refusals.
ghost use Rattle.std.specs.Prelude.{◌≡◌};
ghost use Rattle.fq_core.specs.Refusals.{refusal};

use fq_core::{Fault, Place, Refusal};

/// A refusal with a code at a place.
pub fn refusal(code: u16, place: Place) -> Fault
    ensures { result ≡ refusal code place }
{
    Fault::Refused(Refusal { code, place })
}
