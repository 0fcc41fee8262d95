// The line of a certificate whose formula is another one than ours.
ghost use Rattle.std.specs.Prelude.{◌≡◌, ◌++◌, IfOk, OnOk, Some};
ghost use Rattle.std.specs.Option.{option_copied};
ghost use Rattle.certificate.specs.Differences.{IsFirstDifference};
ghost use Rattle.command.specs.Comparison.{clause_or_none, difference_line, difference_text};

use certificate::Difference;
use cnf::{Clause, Formula, push_clause, push_number};
use fq_core::Memory;
use std::alloc::Global;

fn push_clause_or_none(line: &mut Vec<u8>, clause: Option<&Clause>) -> Result<(), Memory>
    ensures { OnOk result (line.new.items
        ≡ line.old.items ++ clause_or_none (option_copied clause.entry)) }
{
    match clause {
        Some(clause) => push_clause(line, clause),
        None => Ok(line.extend_from_slice(b"none")?),
    }
}

fn push_difference(
    line: &mut Vec<u8>,
    theirs: &Formula,
    ours: &Formula,
    difference: Difference,
) -> Result<(), Memory>
    requires { IsFirstDifference theirs.now ours.now (Some difference) }
    ensures { OnOk result (line.new.items
        ≡ line.old.items ++ difference_text theirs.now ours.now difference) }
{
    match difference {
        Difference::Variables { theirs, ours } => {
            line.extend_from_slice(b"variables ")?;
            push_number(line, theirs)?;
            line.push(b' ')?;
            push_number(line, ours)
        }
        Difference::ClauseAt { index } => {
            let place = index as usize - 1;
            line.extend_from_slice(b"clause ")?;
            push_number(line, index)?;
            line.push(b' ')?;
            push_clause_or_none(line, theirs.clauses.get(place))?;
            line.push(b' ')?;
            push_clause_or_none(line, ours.clauses.get(place))
        }
    }
}

/// The line of code 91: what differs first in the certificate's formula and the goal's.
pub fn difference_line(
    alloc: Global,
    theirs: &Formula,
    ours: &Formula,
    difference: Difference,
) -> Result<Vec<u8>, Memory>
    requires { IsFirstDifference theirs.now ours.now (Some difference) }
    ensures { IfOk result (λ line. line.items ≡ difference_line theirs.now ours.now difference) }
{
    let mut line = Vec::from_slice(alloc, b"error 91 OtherFormula ")?;
    push_difference(&mut line, theirs, ours, difference)?;
    line.push(b'\n')?;
    Ok(line)
}
