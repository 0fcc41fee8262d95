// Clauses by their numbers.
ghost use Rattle.std.specs.Prelude.{◌≡◌, slice_get};
ghost use Rattle.std.specs.Option.{option_copied, option_map};
ghost use Rattle.cnf.specs.Checks.{clauses_before, numbered};

use crate::clause::Clause;
use crate::derivation::Derivation;
use crate::formula::Formula;

/// The clause with a number, from 1, among those of the formula and of the first `before` lines.
pub fn clause_before<'a>(
    formula: &'a Formula,
    derivation: &'a Derivation,
    before: usize,
    number: u32,
) -> Option<&'a Clause>
    ensures { option_copied result ≡ numbered (clauses_before formula.now derivation.now before) number }
{
    if number == 0 {
        return None;
    }
    let place = number as usize - 1;
    let own = formula.clauses.len();
    if place < own {
        formula.clauses.get(place)
    } else if place - own < before {
        line_clause(derivation, place - own)
    } else {
        None
    }
}

fn line_clause(derivation: &Derivation, place: usize) -> Option<&Clause>
    ensures { option_copied result ≡ option_map (λ line. line.clause) (slice_get derivation.now.lines place) }
{
    match derivation.lines.get(place) {
        Some(line) => Some(&line.clause),
        None => None,
    }
}
