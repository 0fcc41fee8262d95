// Formulas as text.
ghost use Rattle.std.specs.Prelude.{◌≡◌, ◌++◌, ◌∷◌, [], IfOk, OnOk, codes};
ghost use Rattle.std.specs.Fmt.{decimal, signed_decimal};
ghost use Rattle.std.specs.List.{flat_map};
ghost use Rattle.cnf.specs.Dimacs as dimacs;

use crate::clause::Clause;
use crate::formula::Formula;
use fq_core::Memory;
use itoa::{Buffer, Integer};
use std::alloc::Global;

/// The text of a formula in DIMACS form: `p cnf V C` and a line for each clause.
pub fn dimacs(alloc: Global, formula: &Formula) -> Result<Vec<u8>, Memory>
    ensures { IfOk result (λ text. text.items ≡ dimacs.dimacs_text formula.now) }
{
    let mut text = Vec::new(alloc);
    push_dimacs(&mut text, formula)?;
    Ok(text)
}

/// Appends the text of a formula in DIMACS form.
pub fn push_dimacs(text: &mut Vec<u8>, formula: &Formula) -> Result<(), Memory>
    ensures { OnOk result (text.new.items ≡ text.old.items ++ dimacs.dimacs_text formula.now) }
{
    push_head(text, formula.variables, formula.clauses.len() as u64)?;
    for clause in formula.clauses.as_slice() {
        push_clause(text, clause)?;
        text.push(b'\n')?;
    }
    Ok(())
}

/// Appends a number in decimal.
pub fn push_number<I: Integer>(text: &mut Vec<u8>, number: I) -> Result<(), Memory>
    ensures { OnOk result (text.new.items ≡ text.old.items ++ I.text number) }
{
    let mut buffer = Buffer::new();
    text.extend_from_slice(buffer.format(number).as_bytes())?;
    Ok(())
}

/// Appends the first line, without its line feed.
fn push_head(text: &mut Vec<u8>, variables: u32, clauses: u64) -> Result<(), Memory>
    ensures { OnOk result (text.new.items ≡ text.old.items ++ dimacs.head_text variables clauses ++ 10 ∷ []) }
{
    text.extend_from_slice(b"p cnf ")?;
    push_number(text, variables)?;
    text.push(b' ')?;
    push_number(text, clauses)?;
    text.push(b'\n')?;
    Ok(())
}

/// Appends a clause: its literals, each with a space after it, and 0.
pub fn push_clause(text: &mut Vec<u8>, clause: &Clause) -> Result<(), Memory>
    ensures { OnOk result (text.new.items ≡ text.old.items ++ dimacs.clause_text clause.now) }
{
    for literal in clause.literals() {
        push_number(text, *literal)?;
        text.push(b' ')?;
    }
    text.push(b'0')?;
    Ok(())
}
