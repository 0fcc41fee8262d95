// Values in a run: of an expression in a state, and of an answer.
ghost use Rattle.std.specs.Prelude.{◌≡◌, IsTrue};
ghost use Rattle.c_values.specs.Kind.{IsKind};
ghost use Rattle.cfa.specs.Rules.{expr_fits};
ghost use Rattle.cfa.specs.States.{IsState, value_in};
ghost use Rattle.c_meaning.specs.Places.{room_in};
ghost use Rattle.c_meaning.specs.Steps.{answer_of, function_at};

use crate::evaluate::{fitted, value_of};
use crate::input::Input;
use crate::state::store_of;
use c_values::Kind;
use cfa::{Expr, Graph, State, Trap};

/// The value of an expression in a state, or the trap that ends its evaluation. It takes no memory.
pub fn value_in(graph: &Graph, state: &State, expr: &Expr) -> Result<u64, Trap>
    requires state { IsState graph.now state.now }
    // It names what the function has where control is.
    requires fits { IsTrue (expr_fits (room_in graph.now (function_at graph.now state.now.node)) expr.now) }
    ensures { result ≡ value_in state.now expr.now }
{
    value_of(&store_of(graph, state), expr)
}

/// The answer of a number, counted from 0, that an input gives an input function whose result has a kind: 0 past the end
/// of its list. It takes no memory.
pub fn answer_of(input: &Input, number: u64, kind: Kind) -> u64
    requires { IsKind kind }
    ensures { result ≡ answer_of input.now kind number }
{
    let answers = input.answers.as_slice();
    let word = match usize::try_from(number) {
        Ok(number) => answers.get(number).copied().unwrap_or(0),
        Err(_large) => 0,
    };
    fitted(word, kind)
}
