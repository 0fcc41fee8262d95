// The tokens of texts as they are made.
ghost use Rattle.std.specs.Prelude.{◌≡◌};
ghost use Rattle.fq_core.specs.Refusals.{refusal};
ghost use Rattle.c_lex.specs.Lexed.{the_limit};

use crate::refuse::refusal;
use crate::token::Token;
use fq_core::{Fault, Place};

/// The greatest number of tokens, and that of replaced words, over all texts.
pub const MOST: usize = 200_000;

/// The tokens that were made by now, and how many words were replaced, over all texts.
#[derive(Drop)]
pub struct Output {
    pub tokens: Vec<Token>,
    pub replaced: usize,
}

/// The refusal of more tokens or replaced words than are allowed.
pub fn past_limit() -> Fault
    ensures { result ≡ refusal 15 the_limit }
{
    refusal(
        15,
        Place::Limit {
            number: MOST as u64,
        },
    )
}
