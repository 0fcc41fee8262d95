//! Searches models of formulas, for bench/search and bench/orders: `search_formula BUDGET FILE [ORDER]`, where the file is a
//! certificate without lines, and the order `lowest`, `highest` or `both`; `lowest` where it isn't said. It prints what
//! `search_in_order` or `search_both` answers, and for a derivation its number of lines.
#![tactic(auto)]

ghost use Rattle.std.specs.Prelude.{◌≡◌};
ghost use Rattle.std.specs.List.{list_all};
ghost use Rattle.search.specs.Laws.{is_over};

use certificate::read_certificate;
use cnf::{Clause, Formula, literal_key};
use fq_io::{Files, RealFiles};
use search::{FirstVariables, Found, search_both, search_in_order};
use std::alloc::Global;
use std::process::ExitCode;
use std::{env, io};

const MOST_BYTES: u64 = 256 * 1024 * 1024;

// Whether all literals are of the formula's variables.
fn are_over(variables: u32, clauses: &[Clause]) -> bool
    ensures { result ≡ list_all (list_all (is_over variables)) clauses.now }
{
    clauses
        .iter()
        .all(|clause| is_clause_over(variables, clause))
}

fn is_clause_over(variables: u32, clause: &Clause) -> bool
    ensures { result ≡ list_all (is_over variables) clause.now }
{
    clause
        .literals()
        .iter()
        .all(|literal| is_literal_over(variables, *literal))
}

fn is_literal_over(variables: u32, literal: i32) -> bool
    ensures { result ≡ is_over variables literal }
{
    let key = literal_key(literal);
    1 < key && key < 2 * variables as usize + 2
}

// The formula of a file, or nothing where it can't be read or is refused.
fn formula_of<F: Files>(alloc: Global, files: &mut F, file: &str) -> Option<Formula> {
    let Ok(bytes) = files.read_whole(alloc, file, MOST_BYTES) else {
        return None;
    };
    if bytes.len() as u64 > MOST_BYTES {
        return None;
    }
    match read_certificate(alloc, &bytes) {
        Ok((formula, _)) => Some(formula),
        Err(_) => None,
    }
}

// Which variables are decided first: in one search, or in one after the other as `generate` does.
#[derive(Clone, Copy, Debug, Drop)]
enum Order {
    Only(FirstVariables),
    Both,
}

// The order that a word names.
fn order_of(word: Option<&String>) -> Option<Order> {
    let Some(word) = word else {
        return Some(Order::Only(FirstVariables::Lowest));
    };
    let word = word.as_str();
    if word == "lowest" {
        Some(Order::Only(FirstVariables::Lowest))
    } else if word == "highest" {
        Some(Order::Only(FirstVariables::Highest))
    } else if word == "both" {
        Some(Order::Both)
    } else {
        None
    }
}

// What a search answers, or nothing where its condition doesn't hold or memory is wanting.
fn found(alloc: Global, formula: &Formula, budget: u64, order: Order) -> Option<Found> {
    if formula.variables > 1 << 30 || !are_over(formula.variables, &formula.clauses) {
        return None;
    }
    match order {
        Order::Only(first) => search_in_order(alloc, formula, budget, first).ok(),
        Order::Both => search_both(alloc, formula, budget).ok(),
    }
}

fn main(rt: HostRuntime) -> Result<ExitCode, io::Error> {
    let mut files = RealFiles::new(&rt);
    let mut words = env::args(&rt)?.skip(1);
    let (Some(budget), Some(file)) = (words.next(), words.next()) else {
        return Ok(ExitCode::from(2));
    };
    let Ok(budget) = budget.as_str().parse::<u64>() else {
        return Ok(ExitCode::from(2));
    };
    let word = words.next();
    let Some(order) = order_of(word.as_ref()) else {
        return Ok(ExitCode::from(2));
    };
    let Some(formula) = formula_of(rt.alloc(), &mut files, file.as_str()) else {
        return Ok(ExitCode::from(1));
    };
    let Some(found) = found(rt.alloc(), &formula, budget, order) else {
        return Ok(ExitCode::from(1));
    };
    match &found {
        Found::Model(_) => println!(rt; "model")?,
        Found::NoModel(derivation) => println!(rt; "no model {}", derivation.lines.len())?,
        Found::Spent(_) => println!(rt; "spent")?,
    }
    Ok(ExitCode::from(0))
}
