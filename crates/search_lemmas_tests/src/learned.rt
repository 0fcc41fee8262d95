// What is learned and given, where the derivation is found to be right first.
ghost use Rattle.std.specs.Prelude.{◌≡◌, IfSome};
ghost use Rattle.circuit.specs.Wires.{input_count};
ghost use Rattle.search_lemmas.specs.Store.{Hold};
ghost use Rattle.search.specs.Laws.{IsFormula};

use crate::circuits::formula_of;
use certificate::read_certificate;
use circuit::{Circuit, Lit};
use cnf::{Clause, Derivation, Formula};
use derivation_check::{Checker, Verdict};
use search::{Found, search};
use search_lemmas::{Given, Lessons, Refutation};
use std::alloc::Global;
use std::process::Abort;

/// A store without lessons.
pub(crate) fn new_store(alloc: Global, _circuit: &Circuit) -> Lessons
    ensures { Hold _circuit.now result }
{
    Lessons::new(alloc)
}

/// Learns from a refutation.
pub(crate) fn learn(
    rt: &impl Abort,
    alloc: Global,
    store: &mut Lessons,
    circuit: &Circuit,
    refutation: &Refutation,
)
    requires { Hold circuit.now store.old }
    ensures { Hold circuit.now store.new }
{
    let derivation = refutation.derivation;
    assert!(rt; derivation.lines.len() < 0x1_0000_0000);
    let mut checker = Checker::prepare(alloc, refutation.formula, derivation).expect(
        rt,
        "no memory",
    );
    match checker.check() {
        Verdict::Yes => {
            store
                .learn(alloc, circuit, refutation)
                .expect(rt, "no memory")
        }
        _ => assert!(rt; false, "the derivation is wrong"),
    }
}

/// Learns from the formula and the derivation of a certificate's text.
pub(crate) fn learn_from_text(
    rt: &impl Abort,
    alloc: Global,
    store: &mut Lessons,
    circuit: &Circuit,
    variable: &[Option<u32>],
    text: &[u8],
    places: &[usize],
)
    requires { Hold circuit.now store.old }
    ensures { Hold circuit.now store.new }
{
    assert!(rt; text.len() < 0x1_0000_0000);
    match read_certificate(alloc, text) {
        Ok((formula, derivation)) => {
            let refutation = Refutation {
                variable,
                formula: &formula,
                places,
                derivation: &derivation,
            };
            learn(rt, alloc, store, circuit, &refutation)
        }
        Err(_) => assert!(rt; false, "no certificate"),
    }
}

/// The formula of a literal with lessons, if there is one.
pub(crate) fn given(
    rt: &impl Abort,
    alloc: Global,
    store: &Lessons,
    circuit: &Circuit,
    literal: Lit,
) -> Option<Given>
    requires inputs { input_count circuit.now ≡ 32 }
    requires lessons { Hold circuit.now store.now }
    ensures { IfSome result (λ given. IsFormula given.formula) }
{
    let formula = formula_of(rt, alloc, circuit, literal);
    store
        .given(alloc, circuit, &formula)
        .expect(rt, "no memory")
}

/// Asks that the formula of a literal is given the lessons of these places, and that this is its last clause then. No places:
/// that it is given none.
pub(crate) fn assert_given(
    rt: &impl Abort,
    alloc: Global,
    store: &Lessons,
    circuit: &Circuit,
    literal: Lit,
    places: &[usize],
    last: &[i32],
)
    requires inputs { input_count circuit.now ≡ 32 }
    requires lessons { Hold circuit.now store.now }
{
    match given(rt, alloc, store, circuit, literal) {
        None => assert!(rt; places.is_empty(), "nothing is given"),
        Some(with) => {
            assert_eq!(rt; with.places.as_slice(), places);
            assert_eq!(rt; last_clause(&with.formula), Some(last));
        }
    }
}

/// A derivation that refutes a formula.
pub(crate) fn refuted(rt: &impl Abort, alloc: Global, formula: &Formula) -> Option<Derivation>
    requires { IsFormula formula.now }
{
    assert!(rt; formula.variables <= 1 << 30);
    match search(alloc, formula, 1000).expect(rt, "no memory") {
        Found::NoModel(derivation) => Some(derivation),
        _ => None,
    }
}

/// The literals of the last clause.
pub(crate) fn last_clause(formula: &Formula) -> Option<&[i32]> {
    formula.clauses.last().map(Clause::literals)
}
