// From texts to their typed tree.
ghost use Rattle.std.specs.Prelude.{◌≡◌, ◌<◌, ◌^◌, ℕ, Err, Ok, IfOk, IsErrOf, length};
ghost use Rattle.fq_core.specs.declared.refusal.Place.{Place};
ghost use Rattle.c_lex.specs.Lexed.{AreSmall};
ghost use Rattle.fq_core.specs.Refusals.{IsUnlessMemory, refusal};
ghost use Rattle.c_front.specs.Automata.{IsUnitOf};
ghost use Rattle.c_typed_trees.specs.Fitting.{IsFitting};
ghost use Rattle.c_typed_trees.specs.declared.unit.Typed.{Typed as OneTyped};
ghost use Rattle.c_front.specs.typed_sources.Trees.{IsRefused, IsTypedOf};

use crate::typed_sources::laws::one_outcome;
use c_lex::{SourceText, tokens};
use c_parse::{Unit, parse};
use c_typed_trees::Typed;
use c_types::check;
use c_types_laws::typing_fits::laws::units_of_texts_fit;
use fq_core::Fault;
use std::alloc::Global;

// The unit that the tokens of texts are.
fn unit_of_texts(alloc: Global, texts: &[SourceText]) -> Result<Unit, Fault>
    requires files { length texts.now < 2 ^ 32 }
    requires sizes { AreSmall texts.now }
    ensures accepted { IfOk result (λ unit. IsUnitOf texts.now unit.items) }
    ensures refused { (code : ℕ) (p : Place) → IsErrOf result (refusal code p) → IsRefused texts.now code p }
{
    let tokens = tokens(alloc, texts)?;
    parse(alloc, tokens.as_slice())
}

// The typed tree of texts, or the cause for which they have none.
fn typed(alloc: Global, texts: &[SourceText]) -> Result<Typed, Fault>
    requires files { length texts.now < 2 ^ 32 }
    requires sizes { AreSmall texts.now }
    ensures accepted { IfOk result (λ typed. IsTypedOf texts.now typed) }
    ensures refused { (code : ℕ) (p : Place) → IsErrOf result (refusal code p) → IsRefused texts.now code p }
{
    let unit = unit_of_texts(alloc, texts)?;
    check(alloc, unit)
}

/// The typed tree of source texts, which are one unit in their order (ISO/IEC 9899:2011, 5.1.1.2 and 6.9).
///
/// Texts without one are refused, in this order, for a cause in their tokens (codes 10 to 15), in the unit that these
/// would be (21, 22, 20), or for the first that is wrong in the unit (29 to 35, 37 to 39).
pub fn typed_of_texts(alloc: Global, texts: &[SourceText]) -> Result<Typed, Fault>
    requires files { length texts.now < 2 ^ 32 }
    requires sizes { AreSmall texts.now }
    // What is answered is the typed tree of the texts, and an automaton can be made of it.
    ensures accepted { IfOk result (λ typed. IsTypedOf texts.now typed) }
    ensures fits { IfOk result (λ typed. IsFitting typed (length texts.now)) }
    // The typed tree of the texts is answered, where they have one.
    ensures accepts { (typed : OneTyped) → IsTypedOf texts.now typed → IsUnlessMemory result (Ok typed) }
    // A refusal has its cause.
    ensures refused { (code : ℕ) (p : Place) → IsErrOf result (refusal code p) → IsRefused texts.now code p }
    // Where there is a cause, it is refused.
    ensures refuses { (code : ℕ) (p : Place) → IsRefused texts.now code p → IsUnlessMemory result (Err (refusal code p)) }
{
    one_outcome();
    units_of_texts_fit();
    typed(alloc, texts)
}
