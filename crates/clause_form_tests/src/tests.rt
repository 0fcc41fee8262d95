// Clauses worked by hand, and a chain of 100,000 gates.
use circuit::{Circuit, Lit, Truth};
use clause_form::{ClauseForm, clause_form};
use cnf::{Clause, dimacs};
use std::alloc::{AllocError, Global};
use std::process::Abort;
use std::test::Fail;

// A literal of a circuit: a constant, or one that was made, by its number from 1, inputs first, or its negation.
#[derive(Clone, Copy)]
enum Named {
    Yes,
    No,
    Made(usize),
    Not(usize),
}

use Named::{Made, No, Not, Yes};

#[derive(Clone, Copy)]
struct Row {
    inputs: u32,
    gates: &'static [(Named, Named)],
    root: Named,
    variable: &'static [Option<u32>],
    text: &'static str,
}

const ROWS: [Row; 13] = [
    // The constants, without any wire, and with inputs that they don't reach.
    Row {
        inputs: 0,
        gates: &[],
        root: Yes,
        variable: &[],
        text: "p cnf 0 0\n",
    },
    Row {
        inputs: 0,
        gates: &[],
        root: No,
        variable: &[],
        text: "p cnf 0 1\n0\n",
    },
    Row {
        inputs: 2,
        gates: &[(Made(1), Made(2))],
        root: No,
        variable: &[None, None, None],
        text: "p cnf 0 1\n0\n",
    },
    // An input.
    Row {
        inputs: 2,
        gates: &[],
        root: Made(1),
        variable: &[Some(1), None],
        text: "p cnf 1 1\n1 0\n",
    },
    Row {
        inputs: 2,
        gates: &[],
        root: Not(2),
        variable: &[None, Some(1)],
        text: "p cnf 1 1\n-1 0\n",
    },
    // A gate of two inputs: a conjunction, a disjunction, and one whose parts are given in the other order.
    Row {
        inputs: 2,
        gates: &[(Made(1), Made(2))],
        root: Made(3),
        variable: &[Some(1), Some(2), Some(3)],
        text: "p cnf 3 4\n1 -3 0\n2 -3 0\n-1 -2 3 0\n3 0\n",
    },
    Row {
        inputs: 2,
        gates: &[(Not(1), Not(2))],
        root: Not(3),
        variable: &[Some(1), Some(2), Some(3)],
        text: "p cnf 3 4\n-1 -3 0\n-2 -3 0\n1 2 3 0\n-3 0\n",
    },
    Row {
        inputs: 2,
        gates: &[(Made(2), Not(1))],
        root: Made(3),
        variable: &[Some(1), Some(2), Some(3)],
        text: "p cnf 3 4\n-1 -3 0\n2 -3 0\n1 -2 3 0\n3 0\n",
    },
    // Wires that the root doesn't reach, below, between and above those of its cone.
    Row {
        inputs: 3,
        gates: &[(Made(1), Made(3)), (Made(2), Made(3)), (Made(4), Made(5))],
        root: Made(5),
        variable: &[None, Some(1), Some(2), None, Some(3), None],
        text: "p cnf 3 4\n1 -3 0\n2 -3 0\n-1 -2 3 0\n3 0\n",
    },
    // An input that is reached in two ways.
    Row {
        inputs: 2,
        gates: &[(Made(1), Made(2)), (Made(3), Not(1))],
        root: Made(4),
        variable: &[Some(1), Some(2), Some(3), Some(4)],
        text: "p cnf 4 7\n1 -3 0\n2 -3 0\n-1 -2 3 0\n-1 -4 0\n3 -4 0\n1 -3 4 0\n4 0\n",
    },
    // Two inputs that differ.
    Row {
        inputs: 2,
        gates: &[(Made(1), Not(2)), (Not(1), Made(2)), (Not(3), Not(4))],
        root: Not(5),
        variable: &[Some(1), Some(2), Some(3), Some(4), Some(5)],
        text: "p cnf 5 10\n1 -3 0\n-2 -3 0\n-1 2 3 0\n-1 -4 0\n2 -4 0\n1 -2 4 0\n-3 -5 0\n-4 -5 0\n3 4 5 0\n-5 0\n",
    },
    // A conjunction of one wire with itself and with its negation is no gate.
    Row {
        inputs: 1,
        gates: &[(Made(1), Made(1))],
        root: Made(2),
        variable: &[Some(1)],
        text: "p cnf 1 1\n1 0\n",
    },
    Row {
        inputs: 1,
        gates: &[(Made(1), Not(1))],
        root: Made(2),
        variable: &[None],
        text: "p cnf 0 1\n0\n",
    },
];

fn conjunction(rt: &impl Abort, circuit: &mut Circuit, left: Lit, right: Lit) -> Lit {
    let wires = circuit.wires();
    assert!(rt; left.wire() <= wires && right.wire() <= wires && wires < 1 << 30);
    circuit.and(left, right).expect(rt, "no memory")
}

fn negation(rt: &impl Abort, circuit: &mut Circuit, lit: Lit) -> Lit {
    let wires = circuit.wires();
    assert!(rt; lit.wire() <= wires && wires < 1 << 30);
    circuit.not(lit).expect(rt, "no memory")
}

fn input(rt: &impl Abort, circuit: &mut Circuit) -> Lit {
    assert!(rt; circuit.wires() < 1 << 30);
    circuit.input().expect(rt, "no memory")
}

fn literal(rt: &impl Abort, circuit: &mut Circuit, made: &[Lit], named: Named) -> Lit {
    match named {
        Yes => Lit::YES,
        No => Lit::NO,
        Made(number) => made_at(rt, made, number),
        Not(number) => negation(rt, circuit, made_at(rt, made, number)),
    }
}

fn made_at(rt: &impl Abort, made: &[Lit], number: usize) -> Lit {
    assert!(rt; 0 < number && number <= made.len());
    made[number - 1]
}

fn form_of(rt: &impl Abort, alloc: Global, circuit: &Circuit, root: Lit) -> ClauseForm {
    assert!(rt; root.wire() <= circuit.wires() && circuit.wires() <= 1 << 30);
    clause_form(alloc, circuit, root).expect(rt, "no memory")
}

// The inputs, and then the literals of the gates, in order.
fn made_of(
    rt: &impl Abort,
    alloc: Global,
    circuit: &mut Circuit,
    inputs: u32,
    gates: &[(Named, Named)],
) -> Result<Vec<Lit>, AllocError> {
    let mut made = Vec::new(alloc);
    for _ in 0..inputs {
        made.push(input(rt, circuit))?;
    }
    for (left, right) in gates {
        let left = literal(rt, circuit, &made, *left);
        let right = literal(rt, circuit, &made, *right);
        made.push(conjunction(rt, circuit, left, right))?;
    }
    Ok(made)
}

#[test]
fn clauses_by_hand(rt: HostRuntime) -> Result<(), Fail> {
    for row in ROWS {
        let mut circuit = Circuit::new(rt.alloc());
        let made = made_of(&rt, rt.alloc(), &mut circuit, row.inputs, row.gates)?;
        let root = literal(&rt, &mut circuit, &made, row.root);
        let form = form_of(&rt, rt.alloc(), &circuit, root);
        assert_eq!(rt; form.variable.as_slice(), row.variable);
        let text = dimacs(rt.alloc(), &form.formula).expect(&rt, "no memory");
        assert_eq!(rt; text.as_slice(), row.text.as_bytes());
    }
    Ok(())
}

// A chain in which each turn doubles the ways to the one before. The last wire reaches all, the first only itself.
#[test]
fn long_chain(rt: HostRuntime) -> Result<(), Fail> {
    let mut circuit = Circuit::new(rt.alloc());
    let first = input(&rt, &mut circuit);
    let other = input(&rt, &mut circuit);
    let not_other = negation(&rt, &mut circuit, other);
    let mut last = first;
    for _ in 0..50_000u32 {
        let not_last = negation(&rt, &mut circuit, last);
        let neither = conjunction(&rt, &mut circuit, not_last, not_other);
        let wider = negation(&rt, &mut circuit, neither);
        last = conjunction(&rt, &mut circuit, last, wider);
    }
    let form = form_of(&rt, rt.alloc(), &circuit, last);
    assert_eq!(rt; form.formula.variables, 100_002);
    assert_eq!(rt; form.variable.last().copied(), Some(Some(100_002)));
    assert_eq!(rt; form.formula.clauses.len(), 300_001);
    for (place, want) in [
        (0, [-1, -3].as_slice()),
        (5, &[-1, 3, 4]),
        (299_999, &[-100_000, 100_001, 100_002]),
        (300_000, &[100_002]),
    ] {
        let literals = form.formula.clauses.get(place).map(Clause::literals);
        assert_eq!(rt; literals, Some(want));
    }
    let form = form_of(&rt, rt.alloc(), &circuit, first);
    assert_eq!(rt; form.formula.variables, 1);
    assert_eq!(rt; form.formula.clauses.len(), 1);
    Ok(())
}
