// From texts to their typed tree and the automaton that is made of it.
ghost use Rattle.std.specs.Prelude.{◌≡◌, ◌<◌, ◌^◌, ℕ, IfOk, IsErrOf, length};
ghost use Rattle.fq_core.specs.declared.refusal.Place.{Place};
ghost use Rattle.fq_core.specs.Refusals.{refusal};
ghost use Rattle.c_lex.specs.Lexed.{AreSmall};
ghost use Rattle.cfa.specs.Contexts.{IsOnce};
ghost use Rattle.c_front.specs.Automata.{IsAutomatonOf, names_of};
ghost use Rattle.c_front.specs.Automata as automata;
ghost use Rattle.c_typed_trees.specs.Fitting.{IsFitting};
ghost use Rattle.c_front.specs.typed_sources.Trees.{IsTypedOf};

use crate::typed_sources::sources::typed_of_texts;
use c_lex::SourceText;
use c_lower::lower;
use c_typed_trees::Typed;
use cfa::Graph;
use containers::{TryClone, Vector};
use fq_core::{Fault, Name};
use std::alloc::{AllocError, Global};

// The names of texts.
fn names(alloc: Global, texts: &[SourceText]) -> Result<Vector<Name>, AllocError>
    ensures { IfOk result (λ names. names ≡ names_of texts.now) }
{
    let mut names = Vector::new(alloc);
    for text in texts {
        names.push(text.name.try_clone(alloc)?)?;
    }
    Ok(names)
}

/// The typed tree of source texts and their automaton, with one reading of the texts.
///
/// Texts without an automaton are refused as `crate::automaton_of_texts` refuses them: for what [`typed_of_texts`]
/// refuses, or for more than 40,000 edges (41).
pub fn lowered_of_texts(alloc: Global, texts: &[SourceText]) -> Result<(Typed, Graph), Fault>
    requires files { length texts.now < 2 ^ 32 }
    requires sizes { AreSmall texts.now }
    ensures typed { IfOk result (λ made. IsTypedOf texts.now made.0) }
    ensures fits { IfOk result (λ made. IsFitting made.0 (length texts.now)) }
    ensures lowered { IfOk result (λ made. IsAutomatonOf texts.now made.1) }
    ensures once { IfOk result (λ made. IsOnce made.1) }
    // A refusal has its cause. Texts with one have no automaton, by the law of `c_front`.
    ensures refused { (code : ℕ) (p : Place) → IsErrOf result (refusal code p) → automata.IsRefused texts.now code p }
{
    let typed = typed_of_texts(alloc, texts)?;
    let names = names(alloc, texts)?;
    let graph = lower(alloc, &typed, names)?;
    Ok((typed, graph))
}
