// Which predicates hold in a state.
ghost use Rattle.std.specs.Prelude.{◌≡◌, ◌+◌, ◌*◌, ◌^◌, ◌<◌, ◌≤◌, length, map};
ghost use Rattle.cfa.specs.Each.{Each};
ghost use Rattle.cfa.specs.Predicates.{IsPredicates};
ghost use Rattle.cfa.specs.States.{IsState};
ghost use Rattle.path_runner.specs.Fits.{RowFits};
ghost use Rattle.path_runner.specs.Masks.{bit, number_of_bits, holds, mask_of};

use c_meaning::value_in;
use cfa::{Graph, Predicates, SharedExpr, State};
use containers::Vector;

// Whether a predicate holds, by its expressions for each scope.
fn holds(graph: &Graph, state: &State, row: &[Option<SharedExpr>], scope: u32) -> bool
    requires state { IsState graph.now state.now }
    requires fits { RowFits graph.now state.now scope row.now }
    ensures { result ≡ holds scope state.now row.now }
{
    match row.get(scope as usize) {
        Some(Some(shared)) => match value_in(graph, state, shared.expr()) {
            Ok(value) => value != 0,
            Err(_trap) => false,
        },
        Some(None) => false,
        None => false,
    }
}

// A number with one more bit below the others.
fn with_bit(number: u64, low: bool) -> u64
    requires { number < 2 ^ 63 }
    ensures { result ≡ bit low + 2 * number }
{
    if low { 1 + 2 * number } else { 2 * number }
}

// The predicates that hold, by their expressions, as a number.
fn mask_in(graph: &Graph, state: &State, rows: &[Vector<Option<SharedExpr>>], scope: u32) -> u64
    requires state { IsState graph.now state.now }
    requires few { length rows.now ≤ 64 }
    requires fits { Each rows.now (λ at row. RowFits graph.now state.now scope row) }
    ensures { result ≡ number_of_bits (map (holds scope state.now) rows.now) }
{
    let mut mask = 0;
    let mut at = rows.len();
    while at > 0 {
        at -= 1;
        mask = with_bit(mask, holds(graph, state, &rows[at], scope));
    }
    mask
}

/// The predicates that hold in a state, as a number.
pub(crate) fn mask_of(graph: &Graph, predicates: &Predicates, state: &State) -> u64
    requires state { IsState graph.now state.now }
    requires predicates { IsPredicates graph.now predicates.now }
    ensures { result ≡ mask_of graph.now predicates.now state.now }
{
    graph.well_formed();
    let scope = graph.nodes()[state.node as usize].scope;
    mask_in(graph, state, &predicates.meanings, scope)
}
