// The quoted letters of clauses.
ghost use Rattle.std.specs.Prelude.{◌≡◌, IfOk};
ghost use Rattle.std.specs.List.{list_any};
ghost use Rattle.std.specs.Str.{bytes_eq};
ghost use Rattle.goals.specs.applied_clauses.Trees.{tree_of};
ghost use Rattle.goals.specs.Quotes.{quotes_in};
ghost use Rattle.goals.specs.Words.{number_of, quoted, same_text, texts};
ghost use Rattle.indexmap.specs.IndexSet.{insert_all, insert_key};

use crate::applied_clauses::AppliedTree;
use fq_core::{Memory, Name};
use std::alloc::Global;

/// A quoted letter of a clause: the bytes between its quotation marks, and its expression.
#[derive(Clone, Copy)]
pub(crate) struct QuotedLetter<'a> {
    pub text: &'a Name,
    pub body: &'a AppliedTree,
}

/// The place of the first quoted letter with this text, or their number where there is none.
pub(crate) fn number_of(quotes: &[QuotedLetter], text: &Name) -> usize
    ensures { result ≡ number_of (texts (quotes_in quotes.now)) text.now }
{
    for (number, quote) in quotes.iter().enumerate() {
        if quote.text.bytes() == text.bytes() {
            return number;
        }
    }
    quotes.len()
}

fn has_text(quotes: &[QuotedLetter], text: &Name) -> bool
    ensures { result ≡ list_any (λ q. bytes_eq text.now q.text.now) quotes.now }
{
    quotes
        .iter()
        .any(|quote| text.bytes() == quote.text.bytes())
}

/// These quoted letters, and behind them this one, if its text isn't there yet.
#[tactic(auto, using(crate::proofs::Found::quote_kept, crate::proofs::Found::quote_added))]
fn with_quote<'a>(
    mut found: Vec<QuotedLetter<'a>>,
    text: &'a Name,
    body: &'a AppliedTree,
) -> Result<Vec<QuotedLetter<'a>>, Memory>
    ensures { IfOk result (λ quotes. quotes_in quotes.items ≡ insert_key same_text (quotes_in found.entry.items) (record { text = text.now; body = tree_of body.now })) }
{
    if has_text(&found, text) {
        return Ok(found);
    }
    found.push(QuotedLetter { text, body })?;
    Ok(found)
}

/// These quoted letters, and behind them those of the clause whose texts aren't there yet.
#[tactic(auto, using(crate::proofs::Found::insert_two), unfolding(crate::specs::applied_clauses::Trees::tree_of))]
pub(crate) fn gathered<'a>(
    tree: &'a AppliedTree,
    found: Vec<QuotedLetter<'a>>,
) -> Result<Vec<QuotedLetter<'a>>, Memory>
    ensures { IfOk result (λ quotes. quotes_in quotes.items ≡ insert_all same_text (quotes_in found.entry.items) (quoted (tree_of tree.now))) }
{
    match tree {
        AppliedTree::Nodes(_, _) | AppliedTree::Edges(_, _) => Ok(found),
        AppliedTree::Paths(_) | AppliedTree::Predicate(_) => Ok(found),
        AppliedTree::Quoted { body, text } => with_quote(found, text, body),
        AppliedTree::Dot(a, b) => {
            let first = gathered(a, found)?;
            gathered(b, first)
        }
        AppliedTree::Plus(a, b) => {
            let first = gathered(a, found)?;
            gathered(b, first)
        }
        AppliedTree::Repeat { body, .. } => gathered(body, found),
    }
}
