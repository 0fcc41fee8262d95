// Certificates from bytes.
ghost use Rattle.std.specs.Prelude.{◌≡◌, ◌∷◌, ◌++◌, ◌+◌, ◌≤◌, ◌<◌, ◌^◌, List, ℕ, ℤ, IfOk, MatchOption, MatchResult, length};
ghost use Rattle.cnf.specs.Dimacs.{clause_text};
ghost use Rattle.cnf.specs.declared.derivation.DerivationLine.{DerivationLine as Line};
ghost use Rattle.certificate.specs.Certificates.{IsCertificate, IsClauseOver, IsLineOver, line_text};
ghost use Rattle.certificate.specs.Refusals.{IsRefusal, IsStopBelow, bad_line, fault_of_stop};
ghost use Rattle.certificate.specs.Reading.{ClausesRead, IsClauses, IsClausesStop, IsLines, IsLinesStop};

use crate::clause_row::to_clause;
use crate::heads::{after_derivation_head, after_head, after_title};
use crate::line_row::to_line;
use crate::row::{cut, read_row};
use crate::stop::Stop;
use cnf::{Clause, Derivation, DerivationLine, Formula};
use containers::Vector;
use fq_core::{Fault, Memory, Place, Refusal};
use std::alloc::Global;

/// Reads `count` clauses, each a line, and gives what follows them.
pub(crate) fn read_clauses(
    alloc: Global,
    text: &[u8],
    variables: u32,
    count: u32,
) -> Result<(Vector<Clause>, &[u8]), Stop>
    requires { variables ≤ 2 ^ 30 }
    ensures { MatchResult result
        (λ read. IsClauses variables text.now count read.0 read.1.now)
        (IsClausesStop variables text.now count) }
{
    let mut clauses = Vector::new(alloc);
    let mut numbers = Vec::new(alloc);
    let mut literals = Vec::new(alloc);
    let mut rest = text;
    for at in 0..count {
        match next_clause(alloc, rest, variables, &mut numbers, &mut literals)? {
            Some((clause, after)) => {
                clauses.push(clause)?;
                rest = after;
            }
            None => return Err(Stop::BadLine(at)),
        }
    }
    Ok((clauses, rest))
}

fn next_clause<'a>(
    alloc: Global,
    text: &'a [u8],
    variables: u32,
    numbers: &mut Vec<i64>,
    literals: &mut Vec<i32>,
) -> Result<Option<(Clause, &'a [u8])>, Memory>
    requires { variables ≤ 2 ^ 30 }
    ensures { IfOk result (λ answer. MatchOption answer
        ((clause : List ℤ) (more : List ℕ) → IsClauseOver variables clause → text.now ≡ clause_text clause ++ 10 ∷ more → ⊥)
        (λ read. IsClauseOver variables read.0 × (text.now ≡ clause_text read.0 ++ 10 ∷ read.1.now))) }
{
    let Some((line, after)) = cut(text, b'\n') else {
        return Ok(None);
    };
    if !read_row(line, numbers)? {
        return Ok(None);
    }
    match to_clause(alloc, numbers, variables, literals)? {
        Some(clause) => Ok(Some((clause, after))),
        None => Ok(None),
    }
}

/// Reads `count` lines of a derivation, and gives what follows them.
pub(crate) fn read_lines(
    alloc: Global,
    text: &[u8],
    variables: u32,
    count: u32,
) -> Result<(Vector<DerivationLine>, &[u8]), Stop>
    requires { variables ≤ 2 ^ 30 }
    ensures { MatchResult result
        (λ read. IsLines variables text.now count read.0 read.1.now)
        (IsLinesStop variables text.now count) }
{
    let mut lines = Vector::new(alloc);
    let mut numbers = Vec::new(alloc);
    let mut literals = Vec::new(alloc);
    let mut rest = text;
    for at in 0..count {
        match next_line(alloc, rest, variables, &mut numbers, &mut literals)? {
            Some((line, after)) => {
                lines.push(line)?;
                rest = after;
            }
            None => return Err(Stop::BadLine(at)),
        }
    }
    Ok((lines, rest))
}

fn next_line<'a>(
    alloc: Global,
    text: &'a [u8],
    variables: u32,
    numbers: &mut Vec<i64>,
    literals: &mut Vec<i32>,
) -> Result<Option<(DerivationLine, &'a [u8])>, Memory>
    requires { variables ≤ 2 ^ 30 }
    ensures { IfOk result (λ answer. MatchOption answer
        ((line : Line) (more : List ℕ) → IsLineOver variables line → text.now ≡ line_text line ++ 10 ∷ more → ⊥)
        (λ read. IsLineOver variables read.0 × (text.now ≡ line_text read.0 ++ 10 ∷ read.1.now))) }
{
    let Some((line, after)) = cut(text, b'\n') else {
        return Ok(None);
    };
    if !read_row(line, numbers)? {
        return Ok(None);
    }
    match to_line(alloc, numbers, variables, literals)? {
        Some(line) => Ok(Some((line, after))),
        None => Ok(None),
    }
}

/// The formula and the derivation that a certificate writes. Code 90 comes exactly where the bytes are no
/// certificate, at the first line that isn't allowed, or after the last where lines are missing. It takes no memory
/// for a count that is announced.
pub fn read_certificate(alloc: Global, bytes: &[u8]) -> Result<(Formula, Derivation), Fault>
    requires { length bytes.now < 2 ^ 32 }
    ensures { MatchResult result
        (λ pair. IsCertificate bytes.now pair.0 pair.1)
        (IsRefusal bytes.now) }
{
    let Some(rest) = after_title(bytes) else {
        return Err(bad_line(1));
    };
    let Some(((variables, count), rest)) = after_head(rest) else {
        return Err(bad_line(2));
    };
    match read_clauses(alloc, rest, variables, count) {
        Ok((clauses, rest)) => read_derivation(alloc, bytes, rest, variables, count, clauses),
        Err(stop) => Err(stopped(stop, 3)),
    }
}

// Goes on after the clauses.
fn read_derivation(
    alloc: Global,
    bytes: &[u8],
    rest: &[u8],
    variables: u32,
    count: u32,
    clauses: Vector<Clause>,
) -> Result<(Formula, Derivation), Fault>
    requires bytes { length bytes.now < 2 ^ 32 }
    requires read { ClausesRead bytes.now variables count clauses rest.now }
    requires all { length clauses ≡ count }
    ensures { MatchResult result
        (λ pair. IsCertificate bytes.now pair.0 pair.1)
        (IsRefusal bytes.now) }
{
    let Some((line_count, rest)) = after_derivation_head(rest) else {
        return Err(bad_line(count as usize + 3));
    };
    let (lines, rest) = match read_lines(alloc, rest, variables, line_count) {
        Ok(read) => read,
        Err(stop) => return Err(stopped(stop, count as usize + 4)),
    };
    if !rest.is_empty() {
        return Err(bad_line(line_count as usize + count as usize + 4));
    }
    Ok((Formula { variables, clauses }, Derivation { lines }))
}

// A line, from 1, isn't allowed.
fn bad_line(line: usize) -> Fault
    requires { line < 2 ^ 32 }
    ensures { result ≡ bad_line line }
{
    Fault::Refused(Refusal {
        code: 90,
        place: Place::Line {
            number: line as u32,
        },
    })
}

// Reading stopped so many lines after the lines before this one.
fn stopped(stop: Stop, line: usize) -> Fault
    requires { IsStopBelow line stop }
    ensures { result ≡ fault_of_stop line stop }
{
    match stop {
        Stop::BadLine(at) => bad_line(at as usize + line),
        Stop::Memory => Fault::Memory,
    }
}
