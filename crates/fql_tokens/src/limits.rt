// How many brackets are open.
ghost use Rattle.std.specs.Prelude.{◌≡◌, ◌<◌, ◌^◌};
ghost use Rattle.fql_tokens.specs.Limits.{with_bracket, is_too_deep};

use crate::token::{Mark, Sign, Token};

/// The greatest number of bytes of a query.
pub const MOST_BYTES: usize = 4096;

/// The greatest number of brackets that may be open at a token.
pub const MOST_BRACKETS: usize = 60;

fn with_bracket(brackets: usize, sign: &Sign) -> usize
    requires { brackets < 100 }
    ensures { result ≡ with_bracket brackets sign.now }
{
    match sign {
        Sign::Mark(Mark::Open) => brackets + 1,
        Sign::Mark(Mark::Close) => brackets.saturating_sub(1),
        _ => brackets,
    }
}

/// Whether too many brackets are open at a token.
#[tactic(auto, unfolding(crate::specs::Limits::is_too_deep))]
pub fn is_too_deep(tokens: &[Token]) -> bool
    ensures { result ≡ is_too_deep tokens.now }
{
    let mut brackets = 0;
    for token in tokens {
        brackets = with_bracket(brackets, &token.sign);
        if brackets > MOST_BRACKETS {
            return true;
        }
    }
    false
}
