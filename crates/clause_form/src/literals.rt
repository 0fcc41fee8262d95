// Literals of the formula.
ghost use Rattle.std.specs.Prelude.{◌≡◌, ◌<◌, ◌^◌, IsSomeAnd};
ghost use Rattle.clause_form.specs.Encoding as encoding;

use circuit::Lit;

/// The literal for one of the circuit whose wire has a variable.
pub(crate) fn literal_of(variable: &[Option<u32>], lit: Lit) -> i32
    requires { IsSomeAnd (encoding.variable_of variable.now lit.wire) (λ n. n < 2 ^ 31) }
    ensures { result ≡ encoding.literal_of variable.now lit }
{
    let number = variable[lit.wire() as usize - 1].unwrap() as i32;
    if lit.negated() { -number } else { number }
}
