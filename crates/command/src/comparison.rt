// A certificate compared with a formula that is made anew.
ghost use Rattle.std.specs.Prelude.{◌<◌, ◌^◌, List, length};
ghost use Rattle.command_words.specs.Reading.{Text};
ghost use Rattle.command.specs.Comparison.{IsCompared, IsJudged};
ghost use Rattle.command.specs.Replies.{Tells};

use crate::difference::difference_line;
use crate::refusal::nowhere;
use crate::reply::Reply;
use crate::types::Certificate;
use certificate::compare;
use cnf::{Derivation, Formula};
use derivation_check::{Checker, Verdict};
use fq_core::{Fault, Place, Refusal};
use std::alloc::Global;

// The verdict on a derivation over the formula, with this text where it shows that nothing satisfies the formula.
fn verdict(
    alloc: Global,
    text: Vec<u8>,
    formula: &Formula,
    derivation: &Derivation,
) -> Result<Reply, Fault>
    requires { length derivation.now.lines < 2 ^ 32 }
    ensures { (names : List Text) →
        Tells (IsJudged text.items formula.now derivation.now) names result }
{
    let mut checker = Checker::prepare(alloc, formula, derivation)?;
    match checker.check() {
        Verdict::Yes => Ok(Reply::Answer {
            text,
            left_open: false,
        }),
        Verdict::BadStep { line } => Err(Fault::Refused(Refusal {
            code: 92,
            place: Place::Line { number: line },
        })),
        Verdict::NoEmptyClause => Err(Fault::Refused(nowhere(93))),
    }
}

/// Compares a certificate's formula with ours, and looks at the derivation where they are one. The text is what is said where it
/// shows that nothing satisfies the formula.
pub fn compared(
    alloc: Global,
    text: Vec<u8>,
    theirs: &Certificate,
    ours: &Formula,
) -> Result<Reply, Fault>
    requires { length ours.now.clauses < 2 ^ 32 }
    ensures { (names : List Text) →
        Tells (IsCompared text.items theirs.now.formula ours.now theirs.now.derivation)
        names result }
{
    match compare(&theirs.formula, ours) {
        Some(difference) => {
            let line = difference_line(alloc, &theirs.formula, ours, difference)?;
            Ok(Reply::OtherFormula { line })
        }
        None => verdict(alloc, text, ours, &theirs.derivation),
    }
}
