// From texts to the expressions that they are read as.
ghost use Rattle.std.specs.Prelude.{◌≡◌, [], ◌∷◌, IfOk, MatchOption};
ghost use Rattle.c_lex.specs.Lexed.{Lexed};
ghost use Rattle.predicates.specs.Reading.{AreTreesOf, HasUnread, IsTreeOf, IsUnread, source_of};

use c_lex::{SourceText, Token, are_small, tokens};
use c_parse::{ExprTree, expression};
use containers::Vector;
use fq_core::{Fault, Memory, Name};
use std::alloc::Global;

// A text as a source, which needs no name.
fn source_with(alloc: Global, text: &[u8]) -> Result<SourceText, Memory>
    ensures { IfOk result (λ source. source ∷ [] ≡ source_of text.now) }
{
    Ok(SourceText {
        name: Name::new(alloc, b"")?,
        bytes: Vector::from_vec(Vec::from_slice(alloc, text)?),
    })
}

// The tokens of a text, or none where it is refused as a source.
fn tokens_of(alloc: Global, text: &[u8]) -> Result<Option<Vec<Token>>, Memory>
    ensures { IfOk result (λ tokens. MatchOption tokens (IsUnread text.now) (λ ts. Lexed (source_of text.now) ts.items)) }
{
    let sources = [source_with(alloc, text)?];
    if !are_small(&sources) {
        return Err(Memory);
    }
    match tokens(alloc, &sources) {
        Ok(tokens) => Ok(Some(tokens)),
        Err(Fault::Refused(_)) => Ok(None),
        Err(Fault::Memory) => Err(Memory),
    }
}

// The expression that a text is read as, or none where it isn't read.
fn tree_of(alloc: Global, text: &[u8]) -> Result<Option<ExprTree>, Memory>
    ensures { IfOk result (λ tree. MatchOption tree (IsUnread text.now) (λ t. IsTreeOf text.now t)) }
{
    let Some(tokens) = tokens_of(alloc, text)? else {
        return Ok(None);
    };
    match expression(alloc, tokens.as_slice()) {
        Ok(tree) => Ok(Some(tree)),
        Err(Fault::Refused(_)) => Ok(None),
        Err(Fault::Memory) => Err(Memory),
    }
}

/// The expressions that texts are read as, in order, or none where some text isn't read.
pub fn trees_of(alloc: Global, texts: &[Name]) -> Result<Option<Vec<ExprTree>>, Memory>
    ensures { IfOk result (λ trees. MatchOption trees (HasUnread texts.now) (λ ts. AreTreesOf texts.now ts.items)) }
{
    let mut trees = Vec::new(alloc);
    for text in texts {
        let Some(tree) = tree_of(alloc, text.bytes())? else {
            return Ok(None);
        };
        trees.push(tree)?;
    }
    Ok(Some(trees))
}
