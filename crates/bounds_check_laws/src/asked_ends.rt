//! Which query asks whether runs end, at each node: `cover NODES(ID)$`, byte for byte.
//!
//! It has no code; `specs/asked_ends/Laws` has the law. It stands on `fql_read`, by which these bytes ask for one query, and on `ending_laws`
//! for what its plan asks.

ghost use Rattle.bounds_check_laws.specs.asked_ends.Laws.{AllEndsAreAsked};

use crate::ending_laws::all_nodes_ask;

/// The plan of `cover NODES(ID)$` asks of each node that control can come to, but the entry's exit, whether a run ends there.
pub fn all_ends_are_asked()
    ensures { AllEndsAreAsked }
{
    all_nodes_ask();
}
