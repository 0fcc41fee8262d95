// Formulas worked by hand, pigeons, parities and random clauses: what a search finds, and after how many moves.
use crate::formulas::{
    add, formula_of, is_over_variables, parities, pigeons, random_clauses, unless_first,
    without_clauses,
};
use cnf::{Formula, literal_key};
use derivation_check::{Checker, Verdict};
use search::{
    FirstVariables, Found, History, KeepWatch, Move, NoWatch, Watch, search, search_both,
    search_ends, search_highest_part, search_in_order, search_lowest_part, search_whole,
};
use std::alloc::Global;
use std::process::Abort;
use std::test::Fail;

#[derive(Clone, Copy, Debug, PartialEq, Eq)]
enum Answer {
    Model,
    NoModel { lines: usize },
    Spent { moves: usize },
}

// Whether the values, from variable 1 on, satisfy the formula.
fn satisfies(values: &[bool], formula: &Formula) -> bool {
    formula.clauses.iter().all(|clause| {
        clause.literals().iter().any(|literal| {
            let variable = literal.unsigned_abs() as usize;
            values.get(variable.saturating_sub(1)).copied() == Some(*literal > 0)
        })
    })
}

fn found(rt: &impl Abort, alloc: Global, formula: &Formula, budget: u64) -> Found {
    assert!(rt; is_over_variables(formula) && formula.variables <= 1 << 30);
    search(alloc, formula, budget).expect(rt, "no memory")
}

// What a search answers, tested without trusting it.
fn answered(rt: &impl Abort, alloc: Global, formula: &Formula, budget: u64) -> Answer {
    match found(rt, alloc, formula, budget) {
        Found::Model(values) => {
            assert_eq!(rt; values.len(), formula.variables as usize);
            assert!(rt; satisfies(&values, formula));
            Answer::Model
        }
        Found::NoModel(derivation) => {
            assert!(rt; derivation.lines.len() < 0x1_0000_0000);
            let mut checker = Checker::prepare(alloc, formula, &derivation).expect(rt, "no memory");
            assert_eq!(rt; checker.check(), Verdict::Yes);
            Answer::NoModel {
                lines: derivation.lines.len(),
            }
        }
        Found::Spent(history) => Answer::Spent {
            moves: history.moves.len(),
        },
    }
}

#[test]
fn worked_formulas(rt: HostRuntime) {
    let alloc = rt.alloc();
    let square = [[1, 2].as_slice(), &[-1, 2], &[1, -2], &[-1, -2]];
    for (variables, clauses, budget, want) in [
        // -1 is decided; 1 gives 2, and 3 is false: 1 is learned, before which the trail is cut; 2 gives 2, and 4 is false.
        (2, square.as_slice(), 3, Answer::Spent { moves: 3 }),
        (2, &square, 4, Answer::NoModel { lines: 2 }),
        (2, &square, 9, Answer::NoModel { lines: 2 }),
        (2, &square, 0, Answer::Spent { moves: 0 }),
        (2, &[&[1, 2]], 9, Answer::Model),
        (2, &[&[1, 2]], 2, Answer::Model),
        (2, &[&[1, 2]], 1, Answer::Spent { moves: 1 }),
        (1, &[], 1, Answer::Model),
        (1, &[], 0, Answer::Spent { moves: 0 }),
        (0, &[], 0, Answer::Model),
        (1, &[&[]], 0, Answer::NoModel { lines: 1 }),
        (1, &[&[]], 1, Answer::NoModel { lines: 1 }),
        (3, &[&[1, 2, 3], &[]], 9, Answer::NoModel { lines: 1 }),
        (1, &[&[1], &[-1]], 0, Answer::Spent { moves: 0 }),
        (1, &[&[1], &[-1]], 1, Answer::NoModel { lines: 1 }),
        (1, &[&[1, -1]], 1, Answer::Model),
        (
            3,
            &[&[1], &[-1, 2], &[-2, 3]],
            2,
            Answer::Spent { moves: 2 },
        ),
        (3, &[&[1], &[-1, 2], &[-2, 3]], 3, Answer::Model),
    ] {
        let formula = formula_of(&rt, alloc, variables, clauses);
        assert_eq!(rt; answered(&rt, alloc, &formula, budget), want, "{budget}");
    }
}

#[test]
fn one_decision(rt: HostRuntime) {
    let formula = formula_of(&rt, rt.alloc(), 2, &[&[1, 2]]);
    match found(&rt, rt.alloc(), &formula, 1) {
        Found::Spent(history) => match history.moves.first() {
            Some(Move::Decide { literal }) => assert_eq!(rt; literal_key(*literal) / 2, 1),
            _ => assert!(rt; false, "another move"),
        },
        _ => assert!(rt; false, "another answer"),
    }
}

// The variable that is decided first where both are open and no clause says more.
fn first_decided(rt: &impl Abort, alloc: Global, first: FirstVariables) -> usize {
    let formula = formula_of(rt, alloc, 2, &[&[1, 2]]);
    assert!(rt; is_over_variables(&formula) && formula.variables <= 1 << 30);
    let found = search_in_order(alloc, &formula, 1, first).expect(rt, "no memory");
    let Found::Spent(history) = found else {
        return 0;
    };
    match history.moves.first() {
        Some(Move::Decide { literal }) => literal_key(*literal) / 2,
        _ => 0,
    }
}

#[test]
fn both_orders(rt: HostRuntime) {
    let alloc = rt.alloc();
    assert_eq!(rt; first_decided(&rt, alloc, FirstVariables::Lowest), 1);
    assert_eq!(rt; first_decided(&rt, alloc, FirstVariables::Highest), 2);
    for first in [FirstVariables::Lowest, FirstVariables::Highest] {
        let formula = pigeons(&rt, alloc, 4, 3);
        assert!(rt; is_over_variables(&formula) && formula.variables <= 1 << 30);
        let found = search_in_order(alloc, &formula, 100_000, first).expect(&rt, "no memory");
        assert!(rt; matches!(&found, Found::NoModel(_)));
    }
}

#[test]
fn parts_of_a_budget(rt: HostRuntime) {
    let alloc = rt.alloc();
    let formula = formula_of(&rt, alloc, 2, &[&[1, 2]]);
    assert!(rt; is_over_variables(&formula) && formula.variables <= 1 << 30);
    let found = search_lowest_part(alloc, &formula, 1000).expect(&rt, "no memory");
    assert!(rt; matches!(&found, Some(Found::Model(_))));
    let found = search_highest_part(alloc, &formula, 1000).expect(&rt, "no memory");
    assert!(rt; matches!(&found, Some(Found::Model(_))));
    let found = search_lowest_part(alloc, &formula, 999).expect(&rt, "no memory");
    assert!(rt; found.is_none());
    let found = search_highest_part(alloc, &formula, 999).expect(&rt, "no memory");
    assert!(rt; found.is_none());
    for budget in [2, 1000] {
        let found = search_ends(alloc, &formula, budget).expect(&rt, "no memory");
        assert!(rt; matches!(&found, Some(Found::Model(_))));
        let found = search_whole(alloc, &formula, budget).expect(&rt, "no memory");
        assert!(rt; matches!(&found, Found::Model(_)));
        let found = search_both(alloc, &formula, budget).expect(&rt, "no memory");
        assert!(rt; matches!(&found, Found::Model(_)));
    }
}

// Ten pigeons don't go into nine holes, which 20,000 moves don't show, whichever variables come first: each clause holds where the
// first and the last variable do, and both are false first. In a mixture of signs the first is true.
#[test]
fn mixed_signs(rt: HostRuntime) {
    let alloc = rt.alloc();
    let formula = unless_first(&rt, alloc, 10, 9);
    assert!(rt; is_over_variables(&formula) && formula.variables <= 1 << 30);
    for first in [FirstVariables::Lowest, FirstVariables::Highest] {
        let found = search_in_order(alloc, &formula, 20_000, first).expect(&rt, "no memory");
        assert!(rt; matches!(&found, Found::Spent(_)));
    }
    let found = search_ends(alloc, &formula, 20_000).expect(&rt, "no memory");
    assert!(rt; matches!(&found, Some(Found::Model(_))));
    let found = search_whole(alloc, &formula, 20_000).expect(&rt, "no memory");
    assert!(rt; matches!(&found, Found::Model(_)));
}

// Ten pigeons in nine holes aren't refuted by 4,000 moves, however a search begins.
#[test]
fn spent_however_it_begins(rt: HostRuntime) {
    let alloc = rt.alloc();
    let formula = pigeons(&rt, alloc, 10, 9);
    assert!(rt; is_over_variables(&formula) && formula.variables <= 1 << 30);
    let found = search_ends(alloc, &formula, 4000).expect(&rt, "no memory");
    assert!(rt; found.is_none());
    match search_whole(alloc, &formula, 4000).expect(&rt, "no memory") {
        Found::Spent(history) => assert_eq!(rt; history.moves.len(), 4000),
        _ => assert!(rt; false),
    }
}

// The lowest budget within which a search ends, tried one after the other.
fn moves_needed(rt: &impl Abort, alloc: Global, formula: &Formula) -> u64 {
    for budget in 0..1000 {
        match answered(rt, alloc, formula, budget) {
            Answer::Spent { moves } => assert_eq!(rt; moves as u64, budget),
            _ => return budget,
        }
    }
    1000
}

#[test]
fn budgets_up_to_the_need(rt: HostRuntime) {
    let alloc = rt.alloc();
    for formula in [
        pigeons(&rt, alloc, 3, 2),
        pigeons(&rt, alloc, 3, 3),
        parities(&rt, alloc, 3, false),
        parities(&rt, alloc, 3, true),
        random_clauses(&rt, alloc, 8, 36, 7),
    ] {
        let needed = moves_needed(&rt, alloc, &formula);
        assert!(rt; 0 < needed && needed < 1000, "{needed}");
        let last = answered(&rt, alloc, &formula, needed);
        assert_eq!(rt; answered(&rt, alloc, &formula, 100_000), last);
    }
}

fn is_refuted(answer: Answer) -> bool {
    match answer {
        Answer::NoModel { .. } => true,
        _ => false,
    }
}

#[test]
fn pigeons_and_parities(rt: HostRuntime) {
    let alloc = rt.alloc();
    for holes in [2i32, 3, 4, 5, 6] {
        let crowded = pigeons(&rt, alloc, holes.saturating_add(1), holes);
        assert!(rt;
            is_refuted(answered(&rt, alloc, &crowded, 1_000_000)),
            "{holes}"
        );
        let roomy = pigeons(&rt, alloc, holes, holes);
        assert_eq!(rt;
            answered(&rt, alloc, &roomy, 1_000_000),
            Answer::Model,
            "{holes}"
        );
    }
    for count in [4, 8, 10] {
        let same = parities(&rt, alloc, count, true);
        assert_eq!(rt;
            answered(&rt, alloc, &same, 1_000_000),
            Answer::Model,
            "{count}"
        );
        let other = parities(&rt, alloc, count, false);
        assert!(rt;
            is_refuted(answered(&rt, alloc, &other, 1_000_000)),
            "{count}"
        );
    }
}

// The literals of a clause as bits, by sign.
fn signs(literals: &[i32]) -> (u32, u32) {
    let (mut positive, mut negative) = (0u32, 0u32);
    for literal in literals {
        let bit = 1 << (literal.unsigned_abs() & 31);
        if *literal > 0 {
            positive = positive | bit;
        } else {
            negative = negative | bit;
        }
    }
    (positive, negative)
}

// Whether some assignment of 20 variables satisfies the formula: all of them are tried.
fn has_model(rt: &impl Abort, alloc: Global, formula: &Formula) -> bool {
    let mut clauses = Vec::new(alloc);
    for clause in formula.clauses.iter() {
        clauses
            .push(signs(clause.literals()))
            .expect(rt, "no memory");
    }
    (0u32..1 << 20).any(|assignment| {
        let values = assignment << 1;
        clauses.iter().all(|(positive, negative)| values & positive != 0 || !values & negative != 0)
    })
}

#[test]
fn random_formulas(rt: HostRuntime) {
    let alloc = rt.alloc();
    let mut satisfied: u32 = 0;
    for seed in 1..=16 {
        let formula = random_clauses(&rt, alloc, 20, 87, seed);
        let is_satisfied = answered(&rt, alloc, &formula, 1_000_000) == Answer::Model;
        assert_eq!(rt; is_satisfied, has_model(&rt, alloc, &formula), "{seed}");
        if is_satisfied {
            satisfied = satisfied.saturating_add(1);
        }
    }
    assert!(rt; 0 < satisfied && satisfied < 16, "{satisfied}");
    for seed in 1..=4 {
        let formula = random_clauses(&rt, alloc, 40, 170, seed);
        let is_spent = answered(&rt, alloc, &formula, 1_000_000)
            == Answer::Spent { moves: 1_000_000 };
        assert!(rt; !is_spent, "{seed}");
    }
}

// 1,000,000 clauses of three literals, and a chain of 2,000 implications.
#[test]
fn large_formulas(rt: HostRuntime) {
    let alloc = rt.alloc();
    let mut wide = without_clauses(alloc, 3);
    for _ in 0..1_000_000 {
        add(&rt, alloc, &mut wide, &[1, 2, 3]);
    }
    assert_eq!(rt; answered(&rt, alloc, &wide, 3), Answer::Model);
    let mut long = without_clauses(alloc, 2000);
    add(&rt, alloc, &mut long, &[2000]);
    for variable in 1..2000i32 {
        add(
            &rt,
            alloc,
            &mut long,
            &[variable, variable.saturating_add(1).saturating_neg()],
        );
    }
    assert_eq!(rt; answered(&rt, alloc, &long, 2000), Answer::Model);
    assert_eq!(rt;
        answered(&rt, alloc, &long, 1999),
        Answer::Spent { moves: 1999 }
    );
}

// A chain of 400,000 implications, each clause before the one that propagates first.
#[test]
fn long_chain(rt: HostRuntime) {
    let alloc = rt.alloc();
    let count = 400_000i32;
    let mut chain = without_clauses(alloc, count.unsigned_abs());
    for place in 1..count {
        let last = count.saturating_sub(place);
        add(
            &rt,
            alloc,
            &mut chain,
            &[last.saturating_neg(), last.saturating_add(1)],
        );
    }
    add(&rt, alloc, &mut chain, &[1]);
    match found(&rt, alloc, &chain, 400_000) {
        Found::Model(values) => {
            assert_eq!(rt; values.len(), 400_000);
            assert!(rt; values.iter().all(|value| *value));
        }
        _ => assert!(rt; false, "another answer"),
    }
}

// Shows a watch two goals.
fn show_two<W: Watch>(rt: &impl Abort, watch: &mut W, formula: &Formula, history: &History) {
    watch.shown(7, formula, history).expect(rt, "no memory");
    watch.shown(3, formula, history).expect(rt, "no memory");
}

#[test]
fn watches(rt: HostRuntime) {
    let alloc = rt.alloc();
    let formula = formula_of(&rt, alloc, 2, &[&[1, 2]]);
    match found(&rt, alloc, &formula, 1) {
        Found::Spent(history) => {
            let mut watch = KeepWatch::new(alloc);
            show_two(&rt, &mut watch, &formula, &history);
            show_two(&rt, &mut NoWatch, &formula, &history);
            let mut numbers = watch.list.iter().map(|(goal, formula, history)| {
                (*goal, formula.clauses.len(), history.moves.len())
            });
            assert_eq!(rt; numbers.next(), Some((7, 1, 1)));
            assert_eq!(rt; numbers.next(), Some((3, 1, 1)));
            assert_eq!(rt; numbers.next(), None);
        }
        _ => assert!(rt; false, "another answer"),
    }
}
