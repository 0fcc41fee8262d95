// Formulas: from lists of literals, pigeons, parities and random clauses.
ghost use Rattle.std.specs.Prelude.{◌≡◌};
ghost use Rattle.std.specs.List.{list_all};
ghost use Rattle.search.specs.Laws.{is_over};

use cnf::{Clause, Formula, are_literals, literal_key};
use containers::Vector;
use std::alloc::Global;
use std::process::Abort;

/// Whether all literals are of the formula's variables.
pub(crate) fn is_over_variables(formula: &Formula) -> bool
    ensures { result ≡ list_all (list_all (is_over formula.now.variables)) formula.now.clauses }
{
    are_over(formula.variables, &formula.clauses)
}

fn are_over(variables: u32, clauses: &[Clause]) -> bool
    ensures { result ≡ list_all (list_all (is_over variables)) clauses.now }
{
    clauses
        .iter()
        .all(|clause| is_clause_over(variables, clause))
}

fn is_clause_over(variables: u32, clause: &Clause) -> bool
    ensures { result ≡ list_all (is_over variables) clause.now }
{
    clause
        .literals()
        .iter()
        .all(|literal| is_literal_over(variables, *literal))
}

fn is_literal_over(variables: u32, literal: i32) -> bool
    ensures { result ≡ is_over variables literal }
{
    let key = literal_key(literal);
    1 < key && key < 2 * variables as usize + 2
}

/// A formula without clauses.
pub(crate) fn without_clauses(alloc: Global, variables: u32) -> Formula {
    Formula {
        variables,
        clauses: Vector::new(alloc),
    }
}

/// One more clause.
pub(crate) fn add(rt: &impl Abort, alloc: Global, formula: &mut Formula, literals: &[i32]) {
    assert!(rt; are_literals(literals));
    let clause = Clause::new(alloc, literals).expect(rt, "no memory");
    formula.clauses.push(clause).expect(rt, "no memory");
}

pub(crate) fn formula_of(
    rt: &impl Abort,
    alloc: Global,
    variables: u32,
    clauses: &[&[i32]],
) -> Formula {
    let mut formula = without_clauses(alloc, variables);
    for literals in clauses {
        add(rt, alloc, &mut formula, literals);
    }
    formula
}

// The variable of a pigeon, from 0, in a hole, from 1.
fn in_hole(holes: i32, pigeon: i32, hole: i32) -> i32 {
    pigeon.saturating_mul(holes).saturating_add(hole)
}

/// Each pigeon is in a hole, and no hole has two of them.
pub(crate) fn pigeons(rt: &impl Abort, alloc: Global, pigeons: i32, holes: i32) -> Formula {
    let mut formula = without_clauses(alloc, pigeons.saturating_mul(holes).unsigned_abs());
    for pigeon in 0..pigeons {
        let mut literals = Vec::new(alloc);
        for hole in 1..=holes {
            literals
                .push(in_hole(holes, pigeon, hole))
                .expect(rt, "no memory");
        }
        add(rt, alloc, &mut formula, &literals);
    }
    for hole in 1..=holes {
        for pigeon in 0..pigeons {
            for other in 0..pigeon {
                let left = in_hole(holes, pigeon, hole).saturating_neg();
                let right = in_hole(holes, other, hole).saturating_neg();
                add(rt, alloc, &mut formula, &[left, right]);
            }
        }
    }
    formula
}

/// The clauses of pigeons, each of which holds as well where the first variable is true, or the last one.
pub(crate) fn unless_first(rt: &impl Abort, alloc: Global, count: i32, holes: i32) -> Formula {
    let inner = pigeons(rt, alloc, count, holes);
    let last = count.saturating_mul(holes).saturating_add(2);
    let mut formula = without_clauses(alloc, last.unsigned_abs());
    for clause in inner.clauses.iter() {
        for guard in [1, last] {
            let mut literals = Vec::new(alloc);
            literals.push(guard).expect(rt, "no memory");
            for literal in clause.literals() {
                let moved = literal.saturating_add(literal.signum());
                literals.push(moved).expect(rt, "no memory");
            }
            add(rt, alloc, &mut formula, &literals);
        }
    }
    formula
}

// x is whether just one of y and z holds.
fn add_parity(rt: &impl Abort, alloc: Global, formula: &mut Formula, x: i32, y: i32, z: i32) {
    let (no_x, no_y, no_z) = (x.saturating_neg(), y.saturating_neg(), z.saturating_neg());
    add(rt, alloc, formula, &[no_x, y, z]);
    add(rt, alloc, formula, &[no_x, no_y, no_z]);
    add(rt, alloc, formula, &[x, no_y, z]);
    add(rt, alloc, formula, &[x, y, no_z]);
}

/// The parity of variables 1 to `count`, taken upwards and downwards; both parities are the same, or not.
pub(crate) fn parities(rt: &impl Abort, alloc: Global, count: i32, is_same: bool) -> Formula {
    let mut formula = without_clauses(alloc, count.saturating_mul(3).unsigned_abs());
    for place in 1..=count {
        let up = count.saturating_add(place);
        let down = count.saturating_mul(2).saturating_add(place);
        let opposite = count.saturating_add(1).saturating_sub(place);
        if place == 1 {
            add_same(rt, alloc, &mut formula, up, place);
            add_same(rt, alloc, &mut formula, down, opposite);
        } else {
            add_parity(rt, alloc, &mut formula, up, up.saturating_sub(1), place);
            add_parity(
                rt,
                alloc,
                &mut formula,
                down,
                down.saturating_sub(1),
                opposite,
            );
        }
    }
    let up = count.saturating_mul(2);
    let down = count.saturating_mul(3);
    if is_same {
        add_same(rt, alloc, &mut formula, up, down);
    } else {
        add_same(rt, alloc, &mut formula, up, down.saturating_neg());
    }
    formula
}

fn add_same(rt: &impl Abort, alloc: Global, formula: &mut Formula, x: i32, y: i32) {
    add(rt, alloc, formula, &[x, y.saturating_neg()]);
    add(rt, alloc, formula, &[x.saturating_neg(), y]);
}

// Marsaglia's xorshift of 32 bits (2003).
fn next_random(state: u32) -> u32 {
    let state = state ^ (state << 13);
    let state = state ^ (state >> 17);
    state ^ (state << 5)
}

/// So many clauses of three literals, by a number other than 0 that they begin from.
pub(crate) fn random_clauses(
    rt: &impl Abort,
    alloc: Global,
    variables: u32,
    clauses: u32,
    seed: u32,
) -> Formula {
    assert!(rt; 0 < variables && variables < 1000);
    let mut formula = without_clauses(alloc, variables);
    let mut state = seed;
    for _ in 0..clauses {
        let mut literals = [0; 3];
        for at in 0..3 {
            state = next_random(state);
            let variable = ((state >> 1) % variables) as i32;
            let literal = variable.saturating_add(1);
            literals[at] = if state & 1 == 1 {
                literal
            } else {
                literal.saturating_neg()
            };
        }
        add(rt, alloc, &mut formula, &literals);
    }
    formula
}
