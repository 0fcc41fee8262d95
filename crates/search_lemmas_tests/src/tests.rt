// What refutations of small formulas teach, and which formulas are given it: worked by hand.
ghost use Rattle.std.specs.Prelude.{◌≡◌, IfOk, OnOk};
ghost use Rattle.circuit.specs.Wires.{input_count};
ghost use Rattle.search_lemmas.specs.Store.{Hold};

use crate::circuits::{bits_of_an_int, formula_of, gate, negation};
use crate::learned::{
    assert_given, given, last_clause, learn, learn_from_text, new_store, refuted,
};
use circuit::{Circuit, Lit};
use search_lemmas::{Lessons, Refutation};
use std::alloc::Global;
use std::process::Abort;
use std::test::Fail;

// Goals that are x and y, the contradiction of that and of not x and z, and the contradiction with another bit.
#[derive(Clone, Copy, Drop)]
struct Goals {
    part: Lit,
    contradiction: Lit,
    more: Lit,
}

// x, y, z and the other bit are on the wires 1 to 4, the first part on 33, the second on 34, the contradiction on 35, and
// more on 36. So the contradiction's cone has the wires 1, 2, 3, 33, 34, 35, which are its variables 1 to 6, and that of more
// has the wires 1 to 4 and 33 to 36, its variables 1 to 8. The first part's cone has the wires 1, 2 and 33.
fn circuit_of_goals(rt: &impl Abort, alloc: Global) -> (Circuit, Goals)
    ensures { input_count result.0 ≡ 32 }
{
    let (mut circuit, bits) = bits_of_an_int(rt, alloc);
    let part = gate(rt, &mut circuit, bits[0], bits[1]);
    let no_x = negation(rt, &mut circuit, bits[0]);
    let other = gate(rt, &mut circuit, no_x, bits[2]);
    let contradiction = gate(rt, &mut circuit, part, other);
    let more = gate(rt, &mut circuit, contradiction, bits[3]);
    (
        circuit,
        Goals {
            part,
            contradiction,
            more,
        },
    )
}

// The search's refutation of the contradiction stands on clauses of gates but for the one that says that the root holds: it
// teaches that wire 35 never holds. A gate has three clauses, and the root one.
#[test]
fn one_goal_teaches_another(rt: HostRuntime) -> Result<(), Fail> {
    let alloc = rt.alloc();
    let (circuit, goals) = circuit_of_goals(&rt, alloc);
    let mut store = new_store(alloc, &circuit);
    assert!(rt; given(&rt, alloc, &store, &circuit, goals.contradiction).is_none());
    let formula = formula_of(&rt, alloc, &circuit, goals.contradiction);
    let Some(derivation) = refuted(&rt, alloc, &formula.formula) else {
        return Err(Fail::from("not refuted"));
    };
    let refutation = Refutation {
        variable: &formula.variable,
        formula: &formula.formula,
        places: &[],
        derivation: &derivation,
    };
    learn(&rt, alloc, &mut store, &circuit, &refutation);
    for (goal, clauses, last) in [(goals.contradiction, 11, -6), (goals.more, 14, -7)] {
        let Some(with) = given(&rt, alloc, &store, &circuit, goal) else {
            return Err(Fail::from("nothing given"));
        };
        assert_eq!(rt; with.places.as_slice(), [0].as_slice());
        assert_eq!(rt; with.formula.clauses.len(), clauses);
        assert_eq!(rt; last_clause(&with.formula), Some([last].as_slice()));
        assert!(rt; refuted(&rt, alloc, &with.formula).is_some());
    }
    assert!(rt; given(&rt, alloc, &store, &circuit, goals.part).is_none());
    Ok(())
}

// The clauses of the contradiction: of the first part 1 to 3, of the second 4 to 6, of both 7 to 9, and of the root.
const CONTRADICTION: &str =
    "fshell certificate 1\np cnf 6 10\n1 -4 0\n2 -4 0\n-1 -2 4 0\n-1 -5 0\n3 -5 0\n1 -3 5 0\n4 -6 0\n5 -6 0\n-4 -5 6 0\n6 0\n";

// The steps on clause 10, which is no gate's, are left out, and so are those on lines that stand on it.
#[test]
fn derivations_by_hand(rt: HostRuntime) -> Result<(), Fail> {
    let alloc = rt.alloc();
    let (circuit, goals) = circuit_of_goals(&rt, alloc);
    let formula = formula_of(&rt, alloc, &circuit, goals.contradiction);
    for (lines, last) in [
        // {1, -4}, with {-1, -5} {-4, -5}, with {4, -6} {-5, -6}, with {5, -6} {-6}.
        ("derivation 1\n0 1 4 1 7 -4 8 -5 10 -6 0\n", [-7].as_slice()),
        // From the root on: the first clause of a gate is {4, -6}; with {1, -4} {1, -6}, with {-1, -5} {-5, -6}, {-6}.
        ("derivation 1\n0 10 7 6 1 4 4 1 8 -5 10 -6 0\n", &[-7]),
        // Line 11 stands on gates alone.
        (
            "derivation 2\n-4 -5 0 1 4 1 0\n0 11 7 -4 8 -5 10 -6 0\n",
            &[-7],
        ),
        // The lines 11 and 12 stand on the root: {-1, -5}, with {5, -6} {-1, -6}, whose -1 no step resolves.
        (
            "derivation 3\n4 0 10 7 6 0\n1 0 11 1 4 0\n0 12 4 1 8 -5 10 -6 0\n",
            &[-1, -7],
        ),
    ] {
        let mut store = new_store(alloc, &circuit);
        let mut text = String::new(alloc);
        text.push_str(CONTRADICTION)?;
        text.push_str(lines)?;
        learn_from_text(
            &rt,
            alloc,
            &mut store,
            &circuit,
            &formula.variable,
            text.as_bytes(),
            &[],
        );
        assert_given(&rt, alloc, &store, &circuit, goals.more, &[0], last);
    }
    Ok(())
}

// Clauses that are no gate's, which are refuted.
const NO_GATES: &[u8] = b"fshell certificate 1\np cnf 8 2\n-7 0\n7 0\nderivation 1\n0 1 2 -7 0\n";

// A clause of more's gate, the one of its root, and the lesson that its variable 7, the contradiction, never holds.
const MORE: &[u8] =
    b"fshell certificate 1\np cnf 8 3\n7 -8 0\n8 0\n-7 0\nderivation 1\n0 1 2 -8 3 7 0\n";

// Nothing is learned of clauses that are no gate's. Then the contradiction's wire is learned, and from that lesson and the
// clause of more's gate that more never holds: the step on its root is left out.
#[test]
fn a_lesson_teaches_another(rt: HostRuntime) -> Result<(), Fail> {
    let alloc = rt.alloc();
    let (circuit, goals) = circuit_of_goals(&rt, alloc);
    let contradiction = formula_of(&rt, alloc, &circuit, goals.contradiction).variable;
    let more = formula_of(&rt, alloc, &circuit, goals.more).variable;
    let mut text = String::new(alloc);
    text.push_str(CONTRADICTION)?;
    text.push_str("derivation 1\n0 1 4 1 7 -4 8 -5 10 -6 0\n")?;
    let text = text.as_bytes();
    let mut store = new_store(alloc, &circuit);
    learn_from_text(&rt, alloc, &mut store, &circuit, &more, NO_GATES, &[]);
    assert_given(&rt, alloc, &store, &circuit, goals.more, &[], &[]);
    learn_from_text(&rt, alloc, &mut store, &circuit, &contradiction, text, &[]);
    assert_given(&rt, alloc, &store, &circuit, goals.more, &[0], &[-7]);
    learn_from_text(&rt, alloc, &mut store, &circuit, &more, MORE, &[0]);
    assert_given(&rt, alloc, &store, &circuit, goals.more, &[0, 1], &[-8]);
    Ok(())
}

// A chain of gates: gate k, from 1, is on wire 32 + k, and its parts are the gate before it, first wire 32, and one of the
// wires 1 to 31 in turn.
fn chain(rt: &impl Abort, alloc: Global, gates: usize) -> Result<(Circuit, Vec<Lit>), Fail>
    ensures { IfOk result (λ made. input_count made.0 ≡ 32) }
{
    let (mut circuit, bits) = bits_of_an_int(rt, alloc);
    let mut roots = Vec::new(alloc);
    let mut last = bits[31];
    for at in 0..gates {
        last = gate(rt, &mut circuit, bits[at % 31], last);
        roots.push(last)?;
    }
    Ok((circuit, roots))
}

// The refutation of clauses by which gate `gates` of the chain holds where its bits do, of these bits, and of what says that
// it doesn't hold. The variables are the wires. The clauses are numbered: of gate k k, of bit k `gates` + k.
fn conjunction(alloc: Global, gates: u32) -> Result<String, Fail> {
    let mut clauses = String::new(alloc);
    let mut bits = String::new(alloc);
    let mut steps = String::new(alloc);
    let mut ends = String::new(alloc);
    for k in 1..=gates.min(31) {
        let (before, wire) = (k + 31, k + 32);
        clauses.push_str(&format!(in alloc; "-{k} -{before} {wire} 0\n")?)?;
        bits.push_str(&format!(in alloc; "{k} 0\n")?)?;
        if k > 1 {
            steps.push_str(&format!(in alloc; " {k} {before}")?)?;
        }
        let bit = gates.saturating_add(k);
        ends.push_str(&format!(in alloc; " {bit} -{k}")?)?;
    }
    let wire = gates.saturating_add(32);
    let count = gates.saturating_mul(2).saturating_add(2);
    let first = count.saturating_sub(1);
    let head = format!(in alloc; "fshell certificate 1\np cnf {wire} {count}\n")?;
    let roots = format!(in alloc; "32 0\n-{wire} 0\nderivation 1\n0 1")?;
    let end = format!(in alloc; " {first} -32 {count} {wire} 0\n")?;
    let mut text = String::new(alloc);
    for part in [&head, &clauses, &bits, &roots, &steps, &ends, &end] {
        text.push_str(part)?;
    }
    Ok(text)
}

// What is learned of a gate has its literal, those of its bits and that of wire 32: of gate 28 it has 30 literals, and of
// gate 29 one more, which is too many.
#[test]
fn longest_lesson(rt: HostRuntime) -> Result<(), Fail> {
    let alloc = rt.alloc();
    let (circuit, roots) = chain(&rt, alloc, 29)?;
    let Some(last) = roots.last().copied() else {
        return Err(Fail::from("no gate"));
    };
    let mut variable = Vec::new(alloc);
    for wire in 1..=circuit.wires() {
        variable.push(Some(wire))?;
    }
    for (gates, length) in [(28, Some(30)), (29, None)] {
        let mut store = new_store(alloc, &circuit);
        let text = conjunction(alloc, gates)?;
        learn_from_text(
            &rt,
            alloc,
            &mut store,
            &circuit,
            &variable,
            text.as_bytes(),
            &[],
        );
        let with = given(&rt, alloc, &store, &circuit, last);
        let given_length = match &with {
            Some(with) => last_clause(&with.formula).map(|literals| literals.len()),
            None => None,
        };
        assert_eq!(rt; given_length, length, "{gates}");
    }
    Ok(())
}

// The table in which wire 31 + k has variable 1, and wire 32 + k, that of gate k, variable 2.
fn variables_of(alloc: Global, circuit: &Circuit, k: usize) -> Result<Vec<Option<u32>>, Fail> {
    let mut variable = Vec::new(alloc);
    for at in 0..circuit.wires() as usize {
        let number = if at == k.saturating_add(30) {
            Some(1)
        } else if at == k.saturating_add(31) {
            Some(2)
        } else {
            None
        };
        variable.push(number)?;
    }
    Ok(variable)
}

// A clause of gate k, a unit that says that it holds, and one that its part doesn't.
const GATE: &[u8] =
    b"fshell certificate 1\np cnf 2 3\n1 -2 0\n2 0\n-1 0\nderivation 1\n0 1 2 -2 3 1 0\n";

// The same with the clause behind them.
const LESSON: &[u8] =
    b"fshell certificate 1\np cnf 2 3\n2 0\n-1 0\n1 -2 0\nderivation 1\n0 3 1 -2 2 1 0\n";

// Learns a clause of each of the gates of a chain from one on and up to another.
fn learn_gates(
    rt: &impl Abort,
    alloc: Global,
    store: &mut Lessons,
    circuit: &Circuit,
    from: usize,
    to: usize,
) -> Result<(), Fail>
    requires { Hold circuit.now store.old }
    ensures { OnOk result (Hold circuit.now store.new) }
{
    for k in from..=to {
        let variable = variables_of(alloc, circuit, k)?;
        learn_from_text(rt, alloc, store, circuit, &variable, GATE, &[]);
    }
    Ok(())
}

// The places of the lessons that gate k of a chain is given.
fn places_at(
    rt: &impl Abort,
    alloc: Global,
    store: &Lessons,
    circuit: &Circuit,
    roots: &[Lit],
    k: usize,
) -> Vec<usize>
    requires inputs { input_count circuit.now ≡ 32 }
    requires lessons { Hold circuit.now store.now }
{
    assert!(rt; 0 < k && k <= roots.len());
    match given(rt, alloc, store, circuit, roots[k - 1]) {
        Some(with) => with.places,
        None => Vec::new(alloc),
    }
}

// 1,000 gates teach a lesson each. A refutation that stands on the first lesson teaches the same again, which is kept once;
// so the lesson of gate 2 is then of no use for longest, and goes where gate 1,001 teaches one.
#[test]
fn most_lessons(rt: HostRuntime) -> Result<(), Fail> {
    let alloc = rt.alloc();
    let (circuit, roots) = chain(&rt, alloc, 1001)?;
    let mut store = new_store(alloc, &circuit);
    learn_gates(&rt, alloc, &mut store, &circuit, 1, 1000)?;
    let variable = variables_of(alloc, &circuit, 1)?;
    learn_from_text(&rt, alloc, &mut store, &circuit, &variable, LESSON, &[0]);
    assert_eq!(rt;
        places_at(&rt, alloc, &store, &circuit, &roots, 2).as_slice(),
        [0, 1].as_slice()
    );
    assert_eq!(rt;
        places_at(&rt, alloc, &store, &circuit, &roots, 1001).len(),
        1000
    );
    learn_gates(&rt, alloc, &mut store, &circuit, 1001, 1001)?;
    for (k, want) in [(1, [0].as_slice()), (2, &[0]), (3, &[0, 2])] {
        assert_eq!(rt;
            places_at(&rt, alloc, &store, &circuit, &roots, k).as_slice(),
            want,
            "{k}"
        );
    }
    let places = places_at(&rt, alloc, &store, &circuit, &roots, 1001);
    assert_eq!(rt; places.len(), 1000);
    Ok(())
}
