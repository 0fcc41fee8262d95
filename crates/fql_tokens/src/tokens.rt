// The call of the crate.
ghost use Rattle.std.specs.Prelude.{◌≡◌, ℕ, List, Ok, Err, IfOk, IsErrOf};
ghost use Rattle.fq_core.specs.declared.refusal.Place.{Place};
ghost use Rattle.fql_tokens.specs.declared.token.Token.{Token};
ghost use Rattle.fq_core.specs.Refusals.{IsUnlessMemory, refusal};
ghost use Rattle.fql_tokens.specs.Accepted.{AreTokens, IsRefusedText};
ghost use Rattle.fql_tokens.specs.Outcome.{text_outcome};

use crate::cut::cut;
use crate::limits::{MOST_BRACKETS, MOST_BYTES, is_too_deep};
use crate::refuse::refusal;
use crate::token::Token as QueryToken;
use containers::Vector;
use fq_core::{Fault, Place};
use std::alloc::Global;

#[tactic(auto, unfolding(crate::specs::Outcome::text_outcome))]
fn limited(alloc: Global, text: &[u8]) -> Result<Vector<QueryToken>, Fault>
    ensures { IsUnlessMemory result (text_outcome text.now) }
{
    if text.len() > MOST_BYTES {
        return Err(refusal(
            63,
            Place::Limit {
                number: MOST_BYTES as u64,
            },
        ));
    }
    let tokens = match cut(alloc, text) {
        Ok(tokens) => tokens,
        Err(fault) => return Err(fault),
    };
    if is_too_deep(&tokens) {
        return Err(refusal(
            63,
            Place::Limit {
                number: MOST_BRACKETS as u64,
            },
        ));
    }
    Ok(tokens)
}

/// The tokens of a query: blanks, which are spaces, tabs, line feeds and carriage returns, part them, and each is as
/// long as it goes on.
///
/// Refused are, in this order, a query of more than 4,096 bytes (code 63, with the limit), the first byte at which no
/// token begins (code 60, at its column), and more than 60 open `(` at a token (code 63, with the limit).
pub fn query_tokens(alloc: Global, text: &[u8]) -> Result<Vector<QueryToken>, Fault>
    // What is answered are the tokens of the text.
    ensures accepted { IfOk result (λ tokens. AreTokens text.now tokens) }
    // The tokens of the text are answered, where it has such.
    ensures accepts { (tokens : List Token) → AreTokens text.now tokens → IsUnlessMemory result (Ok tokens) }
    // A refusal has its cause.
    ensures refused { (code : ℕ) (p : Place) → IsErrOf result (refusal code p) → IsRefusedText text.now code p }
    // Where there is a cause, it is refused.
    ensures refuses { (code : ℕ) (p : Place) → IsRefusedText text.now code p → IsUnlessMemory result (Err (refusal code p)) }
{
    limited(alloc, text)
}
