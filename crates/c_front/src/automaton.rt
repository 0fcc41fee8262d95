// From texts to their automaton.
ghost use Rattle.std.specs.Prelude.{◌≡◌, ◌<◌, ◌^◌, ℕ, Err, Ok, IfOk, IsErrOf, length};
ghost use Rattle.fq_core.specs.declared.refusal.Place.{Place};
ghost use Rattle.c_lex.specs.Lexed.{AreSmall};
ghost use Rattle.fq_core.specs.Refusals.{IsUnlessMemory, refusal};
ghost use Rattle.cfa.specs.Contexts.{IsOnce};
ghost use Rattle.cfa.specs.declared.parts.GraphParts.{GraphParts};
ghost use Rattle.c_front.specs.Automata.{IsAutomatonOf, IsRefused, IsUnitOf, names_of};

use crate::laws::one_outcome;
use c_lex::{SourceText, tokens};
use c_lower::lower;
use c_parse::{Unit, parse};
use c_types::check;
use c_types_laws::typing_fits::laws::units_of_texts_fit;
use cfa::Graph;
use containers::{TryClone, Vector};
use fq_core::{Fault, Name};
use std::alloc::{AllocError, Global};

// The names of texts.
fn names(alloc: Global, texts: &[SourceText]) -> Result<Vector<Name>, AllocError>
    ensures { IfOk result (λ names. names ≡ names_of texts.now) }
{
    let mut names = Vector::new(alloc);
    for text in texts {
        names.push(text.name.try_clone(alloc)?)?;
    }
    Ok(names)
}

// The unit that the tokens of texts are.
fn unit_of_texts(alloc: Global, texts: &[SourceText]) -> Result<Unit, Fault>
    requires files { length texts.now < 2 ^ 32 }
    requires sizes { AreSmall texts.now }
    ensures accepted { IfOk result (λ unit. IsUnitOf texts.now unit.items) }
    ensures refused { (code : ℕ) (p : Place) → IsErrOf result (refusal code p) → IsRefused texts.now code p }
{
    let tokens = tokens(alloc, texts)?;
    parse(alloc, tokens.as_slice())
}

// The automaton of texts, or the cause for which they have none.
fn automaton(alloc: Global, texts: &[SourceText]) -> Result<Graph, Fault>
    requires files { length texts.now < 2 ^ 32 }
    requires sizes { AreSmall texts.now }
    ensures accepted { IfOk result (λ graph. IsAutomatonOf texts.now graph) }
    ensures once { IfOk result (λ graph. IsOnce graph) }
    ensures refused { (code : ℕ) (p : Place) → IsErrOf result (refusal code p) → IsRefused texts.now code p }
{
    let unit = unit_of_texts(alloc, texts)?;
    let typed = check(alloc, unit)?;
    let names = names(alloc, texts)?;
    units_of_texts_fit();
    lower(alloc, &typed, names)
}

/// The control flow automaton of source texts, which are one unit in their order (ISO/IEC 9899:2011, 5.1.1.2 and 6.9).
/// Its files have the names of the texts.
///
/// Texts without one are refused, in this order, for a cause in their tokens (codes 10 to 15), in the unit that these
/// would be (21, 22, 20), for the first that is wrong in the unit (29 to 35, 37 to 39), or for more than 40,000 edges (41).
pub fn automaton_of_texts(alloc: Global, texts: &[SourceText]) -> Result<Graph, Fault>
    requires files { length texts.now < 2 ^ 32 }
    requires sizes { AreSmall texts.now }
    // What is answered is the automaton of the texts, over which no walk comes to a place twice.
    ensures accepted { IfOk result (λ graph. IsAutomatonOf texts.now graph) }
    ensures once { IfOk result (λ graph. IsOnce graph) }
    // The automaton of the texts is answered, where they have one.
    ensures accepts { (graph : GraphParts) → IsAutomatonOf texts.now graph → IsUnlessMemory result (Ok graph) }
    // A refusal has its cause.
    ensures refused { (code : ℕ) (p : Place) → IsErrOf result (refusal code p) → IsRefused texts.now code p }
    // Where there is a cause, it is refused.
    ensures refuses { (code : ℕ) (p : Place) → IsRefused texts.now code p → IsUnlessMemory result (Err (refusal code p)) }
{
    one_outcome();
    automaton(alloc, texts)
}
