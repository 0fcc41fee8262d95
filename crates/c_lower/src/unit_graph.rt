// The graph of a unit.
ghost use Rattle.std.specs.Prelude.{◌≡◌, ◌≤◌, length, IfOk, IfErr};
ghost use Rattle.cfa.specs.Contexts.{IsOnce};
ghost use Rattle.c_typed_trees.specs.Fitting.{IsFitting};
ghost use Rattle.c_lower_rules.specs.graph_of.GraphOf.{graph_of};
ghost use Rattle.c_lower.specs.Refusal.{IsRefusalOf};

use crate::stop::Stop;
use crate::units::make_parts;
use c_lower_rules::graph_of::laws::graphs_are_once;
use c_lower_rules::graph_rules::laws::graphs_fit;
use c_typed_trees::Typed;
use cfa::{Graph, GraphFault};
use containers::Vector;
use fq_core::{Fault, Name, Place, Refusal};
use std::alloc::Global;

/// The code of a refusal for too many edges.
const TOO_MANY_EDGES: u16 = 41;

/// The control flow automaton of a typed unit, with the names of its files.
///
/// # Errors
///
/// Code 41, with the limit 40,000 as its place, says that the automaton has more edges than that, and comes wherever it
/// has, unless memory runs out first. `Memory` comes where an allocation is refused, or a number would pass 2^32 - 1.
pub fn lower(alloc: Global, typed: &Typed, files: Vector<Name>) -> Result<Graph, Fault>
    requires { IsFitting typed.now (length files) }
    ensures ok { IfOk result (λ graph. graph ≡ graph_of typed.now files) }
    ensures once { IfOk result (λ graph. IsOnce graph) }
    ensures within { IfOk result (λ graph. length graph.edges ≤ 40000) }
    ensures err { IfErr result (λ fault. IsRefusalOf (graph_of typed.now files) fault) }
{
    graphs_fit();
    graphs_are_once();
    let parts = match make_parts(alloc, typed, files) {
        Ok(parts) => parts,
        Err(Stop::Memory) => return Err(Fault::Memory),
        Err(Stop::TooManyEdges) => {
            return Err(Fault::Refused(Refusal {
                code: TOO_MANY_EDGES,
                place: Place::Limit { number: 40_000 },
            }));
        }
    };
    match Graph::new(alloc, parts) {
        Ok(graph) => Ok(graph),
        Err(GraphFault::Memory) => Err(Fault::Memory),
        Err(GraphFault::IllNumbered { .. }) => unreachable!(),
        Err(GraphFault::IllPart) => unreachable!(),
    }
}
