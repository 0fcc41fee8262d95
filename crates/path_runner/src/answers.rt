// The answers that are read along edges.
ghost use Rattle.std.specs.Prelude.{◌≡◌};
ghost use Rattle.path_runner.specs.Paths.{answer_along};

use c_meaning::{Input, answer_of};
use c_values::Kind;
use cfa::{Graph, Operation};

/// The answer of a number that is read along an edge, with its kind, where one is.
pub(crate) fn answer_along(
    graph: &Graph,
    input: &Input,
    edge: u32,
    number: u64,
) -> Option<(Kind, u64)>
    ensures { result ≡ answer_along graph.now input.now edge number }
{
    graph.well_formed();
    let edge = graph.edges().get(edge as usize)?;
    let Operation::Answer {
        input: function,
        ..
    } = &edge.operation
    else {
        return None;
    };
    let kind = graph.inputs().get(*function as usize)?.result;
    Some((kind, answer_of(input, number, kind)))
}
