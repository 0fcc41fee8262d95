// Lines of a derivation, from the numbers of a row.
ghost use Rattle.std.specs.Prelude.{◌≡◌, ◌∷◌, ◌++◌, ◌≤◌, ◌^◌, [], ℕ, ℤ, pos, false, IfOk, MatchOption, List};
ghost use Rattle.cnf.specs.Clauses.{has_literal};
ghost use Rattle.cnf.specs.declared.derivation.DerivationLine.{DerivationLine as Line};
ghost use Rattle.certificate.specs.Certificates.{AreStepsOver, IsLineOver, IsNumber, IsStepOver, numbers_of_line, numbers_of_steps};

use crate::clause_row::{to_clause, to_literal};
use cnf::DerivationLine;
use containers::Vector;
use fq_core::Memory;
use std::alloc::Global;

/// The line with these numbers, where they are those of one over the variables up to a number.
pub(crate) fn to_line(
    alloc: Global,
    numbers: &[i64],
    variables: u32,
    literals: &mut Vec<i32>,
) -> Result<Option<DerivationLine>, Memory>
    requires { variables ≤ 2 ^ 30 }
    ensures { IfOk result (λ answer. MatchOption answer
        ((line : Line) → IsLineOver variables line → numbers.now ≡ numbers_of_line line → ⊥)
        (λ line. IsLineOver variables line × (numbers.now ≡ numbers_of_line line))) }
{
    let Some((clause, chain)) = cut_at_zero(numbers) else {
        return Ok(None);
    };
    let Some((first, steps)) = first_and_rest(chain) else {
        return Ok(None);
    };
    let Some(first) = to_number(first) else {
        return Ok(None);
    };
    let Some(clause) = to_clause(alloc, clause, variables, literals)? else {
        return Ok(None);
    };
    let Some(steps) = to_steps(alloc, steps, variables)? else {
        return Ok(None);
    };
    Ok(Some(DerivationLine {
        clause,
        first,
        steps,
    }))
}

// What stands before and after the first 0.
fn cut_at_zero(numbers: &[i64]) -> Option<(&[i64], &[i64])>
    ensures { MatchOption result
        (has_literal numbers.now (pos 0) ≡ false)
        (λ parts. (numbers.now ≡ parts.0.now ++ pos 0 ∷ parts.1.now) × (has_literal parts.0.now (pos 0) ≡ false)) }
{
    for (at, number) in numbers.iter().enumerate() {
        if *number == 0 {
            return Some((&numbers[..at], &numbers[at + 1..]));
        }
    }
    None
}

fn first_and_rest(numbers: &[i64]) -> Option<(i64, &[i64])>
    ensures { MatchOption result (numbers.now ≡ []) (λ parts. numbers.now ≡ parts.0 ∷ parts.1.now) }
{
    match numbers {
        [first, rest @ ..] => Some((*first, rest)),
        [] => None,
    }
}

// An integer as the number of a clause.
fn to_number(integer: i64) -> Option<u32>
    ensures { MatchOption result
        ((n : ℕ) → IsNumber n → integer ≡ pos n → ⊥)
        (λ n. IsNumber n × (integer ≡ pos n)) }
{
    if 1 <= integer && integer <= 0xffff_ffff {
        Some(integer as u32)
    } else {
        None
    }
}

fn to_step(antecedent: i64, pivot: i64, variables: u32) -> Option<(u32, i32)>
    requires { variables ≤ 2 ^ 30 }
    ensures { MatchOption result
        ((step : ℕ × ℤ) → IsStepOver variables step → antecedent ≡ pos step.0 → pivot ≡ step.1 → ⊥)
        (λ step. IsStepOver variables step × (antecedent ≡ pos step.0) × (pivot ≡ step.1)) }
{
    let Some(antecedent) = to_number(antecedent) else {
        return None;
    };
    match to_literal(pivot, variables) {
        Some(pivot) => Some((antecedent, pivot)),
        None => None,
    }
}

// The steps with these numbers.
fn to_steps(
    alloc: Global,
    numbers: &[i64],
    variables: u32,
) -> Result<Option<Vector<(u32, i32)>>, Memory>
    requires { variables ≤ 2 ^ 30 }
    ensures { IfOk result (λ answer. MatchOption answer
        ((steps : List (ℕ × ℤ)) → AreStepsOver variables steps → numbers.now ≡ numbers_of_steps steps → ⊥)
        (λ steps. AreStepsOver variables steps × (numbers.now ≡ numbers_of_steps steps))) }
{
    let mut steps = Vector::new(alloc);
    let mut rest = numbers;
    while let Some((antecedent, after)) = first_and_rest(rest) {
        let Some((pivot, after)) = first_and_rest(after) else {
            return Ok(None);
        };
        let Some(step) = to_step(antecedent, pivot, variables) else {
            return Ok(None);
        };
        steps.push(step)?;
        rest = after;
    }
    Ok(Some(steps))
}
