// Clauses and literals, from the numbers of a row.
ghost use Rattle.std.specs.Prelude.{◌≡◌, ◌≤◌, ◌<◌, ◌+◌, ◌*◌, ◌^◌, IfOk, MatchBool, MatchOption};
ghost use Rattle.cnf.specs.Clauses.{literal_key};
ghost use Rattle.certificate.specs.Certificates.{IsClauseOver, IsLiteralOver};

use cnf::Clause;
use fq_core::Memory;
use std::alloc::Global;

/// The clause of these literals, where they are one over the variables up to a number.
pub(crate) fn to_clause(
    alloc: Global,
    numbers: &[i64],
    variables: u32,
    literals: &mut Vec<i32>,
) -> Result<Option<Clause>, Memory>
    requires { variables ≤ 2 ^ 30 }
    ensures { IfOk result (λ answer. MatchOption answer
        (IsClauseOver variables numbers.now → ⊥)
        (λ clause. IsClauseOver variables clause × (numbers.now ≡ clause))) }
{
    if read_literals(numbers, variables, literals)? {
        Ok(Some(Clause::from_rising(alloc, literals)?))
    } else {
        Ok(None)
    }
}

// Puts the numbers into `literals`, and answers whether they are a clause.
fn read_literals(numbers: &[i64], variables: u32, literals: &mut Vec<i32>) -> Result<bool, Memory>
    requires { variables ≤ 2 ^ 30 }
    ensures { IfOk result (λ found. MatchBool found
        (IsClauseOver variables numbers.now × (literals.new.items ≡ numbers.now))
        (IsClauseOver variables numbers.now → ⊥)) }
{
    literals.clear();
    let mut low = 0;
    for number in numbers {
        match key_within(*number, variables) {
            Some(key) if key > low => {
                literals.push(*number as i32)?;
                low = key;
            }
            _ => return Ok(false),
        }
    }
    Ok(true)
}

// The key of a number as a literal, where its variable is one up to a number.
fn key_within(number: i64, variables: u32) -> Option<u64>
    ensures { MatchOption result
        (literal_key number ≤ 2 * variables + 1 → ⊥)
        (λ key. (key ≡ literal_key number) × (key ≤ 2 * variables + 1)) }
{
    let variable = number.unsigned_abs();
    if variable > variables as u64 {
        return None;
    }
    Some(if number < 0 {
        variable * 2 + 1
    } else {
        variable * 2
    })
}

/// A number as a literal of the variables up to a number.
pub(crate) fn to_literal(number: i64, variables: u32) -> Option<i32>
    requires { variables ≤ 2 ^ 30 }
    ensures { MatchOption result
        (IsLiteralOver variables number → ⊥)
        (λ literal. IsLiteralOver variables literal × (number ≡ literal)) }
{
    match key_within(number, variables) {
        Some(key) if key > 0 => Some(number as i32),
        _ => None,
    }
}
