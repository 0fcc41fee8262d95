// The calls of the crate.
ghost use Rattle.std.specs.Prelude.{◌≡◌, ℕ, List, map, option_map, Ok, Err, IfOk, IsErrOf};
ghost use Rattle.fq_core.specs.declared.refusal.Place.{Place};
ghost use Rattle.c_parse.specs.declared.expr.ExprTree.{ExprTree};
ghost use Rattle.c_parse.specs.Signs.{terminal_of};
ghost use Rattle.fq_core.specs.Refusals.{refusal, IsUnlessMemory};
ghost use Rattle.c_parse.specs.Expression.{IsExpression, IsRefusedExpression};
ghost use Rattle.c_parse.specs.declared.unit.Item.{Item};
ghost use Rattle.c_parse.specs.UnitForm.{IsUnit, IsRefusedUnit};
ghost use Rattle.c_parse.specs.Outcome.{early_cause, by_rest, expression_outcome, unit_outcome};

use crate::expr::ExprTree;
use crate::expressions::whole_expression;
use crate::items::items;
use crate::limits::{first_foreign, first_passed};
use crate::sign::{Terminal, terminals};
use crate::stop::Stop;
use crate::unit::{Item as ItemTree, Unit};
use c_lex::Token;
use containers::Vector;
use fq_core::{Fault, Place, Refusal};
use std::alloc::Global;

fn refusal(code: u16, place: Place) -> Fault
    ensures { result ≡ refusal code place }
{
    Fault::Refused(Refusal { code, place })
}

// The first token that the profile leaves out, and otherwise the first that passes a limit.
fn early_fault(tokens: &[Terminal]) -> Option<Fault>
    ensures { result ≡ option_map (λ c. refusal c.0 c.1) (early_cause tokens.now) }
{
    if let Some(span) = first_foreign(tokens) {
        let place = Place::Source {
            file: span.file,
            line: span.line,
        };
        return Some(refusal(21, place));
    }
    if let Some(number) = first_passed(tokens) {
        return Some(refusal(22, Place::Limit { number }));
    }
    None
}

#[tactic(auto, unfolding(crate::specs::Outcome::expression_outcome))]
fn read_expression(alloc: Global, tokens: &[Terminal]) -> Result<ExprTree, Fault>
    ensures { IsUnlessMemory result (expression_outcome tokens.now) }
{
    if let Some(fault) = early_fault(tokens) {
        return Err(fault);
    }
    match whole_expression(alloc, tokens) {
        Ok(tree) if !tree.has_sequence_point() => Ok(tree.into_inner()),
        Ok(_) | Err(Stop::Syntax) => Err(refusal(20, Place::Nowhere)),
        Err(Stop::Memory) => Err(Fault::Memory),
    }
}

/// The expression without sequence points (ISO/IEC 9899:2011, 6.5.15 and Annex C) that all the tokens are: it has no call,
/// `&&`, `||` or `?:`.
///
/// Refused are, in this order, the first token that the profile leaves out (code 21, at its line), the first token at
/// which more than 60 brackets are open or which is the 257th in a row with none of `;` `,` `{` `}` (code 22, with the
/// limit), and tokens that are no such expression (code 20, with no place).
pub fn expression(alloc: Global, tokens: &[Token]) -> Result<ExprTree, Fault>
    // What is answered is an expression of the tokens.
    ensures accepted { IfOk result (λ tree. IsExpression (map terminal_of tokens.now) tree) }
    // The expression of the tokens is answered, where there is one.
    ensures accepts { (tree : ExprTree) → IsExpression (map terminal_of tokens.now) tree → IsUnlessMemory result (Ok tree) }
    // A refusal has its cause.
    ensures refused { (code : ℕ) (p : Place) → IsErrOf result (refusal code p) → IsRefusedExpression (map terminal_of tokens.now) code p }
    // Where there is a cause, it is refused.
    ensures refuses { (code : ℕ) (p : Place) → IsRefusedExpression (map terminal_of tokens.now) code p → IsUnlessMemory result (Err (refusal code p)) }
{
    let terminals = terminals(alloc, tokens)?;
    read_expression(alloc, &terminals)
}

// The items that were read, where nothing is left.
fn by_rest(list: Vector<ItemTree>, rest: &[Terminal]) -> Result<Unit, Fault>
    ensures { result ≡ by_rest list rest.now }
{
    match rest {
        [] => Ok(Unit { items: list }),
        [first, ..] => {
            let place = Place::Source {
                file: first.span.file,
                line: first.span.line,
            };
            Err(refusal(20, place))
        }
    }
}

#[tactic(auto, unfolding(crate::specs::Outcome::unit_outcome))]
fn read_unit(alloc: Global, tokens: &[Terminal]) -> Result<Unit, Fault>
    ensures { IsUnlessMemory result (unit_outcome tokens.now) }
{
    if let Some(fault) = early_fault(tokens) {
        return Err(fault);
    }
    let (list, rest) = items(alloc, tokens)?;
    by_rest(list, rest)
}

/// The items that all the tokens are (ISO/IEC 9899:2011, 6.9).
///
/// Refused are, in this order, the first token that the profile leaves out (code 21, at its line), the first token at
/// which more than 60 brackets are open or which is the 257th in a row with none of `;` `,` `{` `}` (code 22, with the
/// limit), and tokens that are no items (code 20, at the line of the token before which the tokens are items and from
/// which on none begins).
pub fn parse(alloc: Global, tokens: &[Token]) -> Result<Unit, Fault>
    // What is answered are the items of the tokens.
    ensures accepted { IfOk result (λ unit. IsUnit (map terminal_of tokens.now) unit.items) }
    // The items of the tokens are answered, where there are such.
    ensures accepts { (items : List Item) → IsUnit (map terminal_of tokens.now) items → IsUnlessMemory result (Ok (record { items = items })) }
    // A refusal has its cause.
    ensures refused { (code : ℕ) (p : Place) → IsErrOf result (refusal code p) → IsRefusedUnit (map terminal_of tokens.now) code p }
    // Where there is a cause, it is refused.
    ensures refuses { (code : ℕ) (p : Place) → IsRefusedUnit (map terminal_of tokens.now) code p → IsUnlessMemory result (Err (refusal code p)) }
{
    let terminals = terminals(alloc, tokens)?;
    read_unit(alloc, &terminals)
}
