// Literals named anew by a table of numbers.
ghost use Rattle.std.specs.Prelude.{◌≡◌, IfOk, IfSome, IsTrue};
ghost use Rattle.cnf.specs.Clauses.{IsClause};
ghost use Rattle.search_lemmas.specs.Naming.{AreNamed, IsNamed};

use cnf::{Clause, literal_key};
use fq_core::Memory;
use std::alloc::Global;

/// The first number that isn't a variable or a wire.
const PAST: u32 = 0x8000_0000;

/// The literal of the number that a table has for this one's, with its sign.
pub(crate) fn named(table: &[Option<u32>], literal: i32) -> Option<i32>
    ensures { IfSome result (IsNamed table.now literal) }
{
    let number = literal.unsigned_abs() as usize;
    if number == 0 || number > table.len() {
        return None;
    }
    let Some(other) = table[number - 1] else {
        return None;
    };
    if other == 0 || other >= PAST {
        return None;
    }
    let other = other as i32;
    if literal < 0 {
        Some(-other)
    } else {
        Some(other)
    }
}

/// All of them, in order, if the table has a number for each.
pub(crate) fn all_named(
    alloc: Global,
    table: &[Option<u32>],
    literals: &[i32],
) -> Result<Option<Vec<i32>>, Memory>
    ensures { IfOk result (λ made.
        IfSome made (λ others. AreNamed table.now literals.now others.items)) }
{
    let mut others = Vec::new(alloc);
    for literal in literals {
        match named(table, *literal) {
            Some(other) => others.push(other)?,
            None => return Ok(None),
        }
    }
    Ok(Some(others))
}

/// Whether a literal is another one, named anew.
fn is_named(table: &[Option<u32>], literal: i32, other: i32) -> bool
    ensures { IsTrue result → IsNamed table.now literal other }
{
    match named(table, literal) {
        Some(found) => found == other,
        None => false,
    }
}

/// Whether literals are others, named anew.
pub(crate) fn are_named(table: &[Option<u32>], literals: &[i32], others: &[i32]) -> bool
    ensures { IsTrue result → AreNamed table.now literals.now others.now }
{
    if literals.len() != others.len() {
        return false;
    }
    for at in 0..literals.len() {
        if !is_named(table, literals[at], others[at]) {
            return false;
        }
    }
    true
}

/// Whether literals rise.
pub(crate) fn do_rise(literals: &[i32]) -> bool
    ensures { IsTrue result → IsClause literals.now }
{
    let mut low = 0;
    for literal in literals {
        let key = literal_key(*literal);
        if key <= low || key >= 0x1_0000_0000 {
            return false;
        }
        low = key;
    }
    true
}

/// The clause of these literals, named anew, if the table has a number for each and they rise then.
pub(crate) fn renamed(
    alloc: Global,
    table: &[Option<u32>],
    literals: &[i32],
) -> Result<Option<Clause>, Memory>
    ensures { IfOk result (λ made. IfSome made (AreNamed table.now literals.now)) }
{
    let Some(others) = all_named(alloc, table, literals)? else {
        return Ok(None);
    };
    if !do_rise(&others) {
        return Ok(None);
    }
    let clause = Clause::from_rising(alloc, &others)?;
    Ok(Some(clause))
}
