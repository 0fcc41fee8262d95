// Clauses worked by hand, the DIMACS form of a formula, and a clause of many literals.
use cnf::{
    Clause, Derivation, DerivationLine, Formula, are_literals, can_resolve, dimacs, is_literal,
    literal_key, negation, resolve,
};
use containers::{Same, TryClone, Vector};
use std::alloc::Global;
use std::process::Abort;
use std::test::Fail;

fn clause(rt: &impl Abort, alloc: Global, literals: &[i32]) -> Clause {
    assert!(rt; are_literals(literals));
    Clause::new(alloc, literals).expect(rt, "no memory")
}

#[test]
fn literals(rt: HostRuntime) {
    for (number, is_one) in [
        (0, false),
        (1, true),
        (-1, true),
        (i32::MAX, true),
        (-i32::MAX, true),
        (i32::MIN, false),
    ] {
        assert_eq!(rt; is_literal(number), is_one, "{number}");
    }
    for (before, after) in [(1, -1), (-1, 2), (2, -2), (-2, 3), (i32::MAX, -i32::MAX)] {
        assert!(rt; literal_key(before) < literal_key(after));
    }
    assert!(rt; is_literal(7));
    assert_eq!(rt; negation(7), -7);
}

#[test]
fn clauses_rise_without_repeats(rt: HostRuntime) {
    for (given, want) in [
        ([].as_slice(), [].as_slice()),
        (&[3], &[3]),
        (&[-1, 1], &[1, -1]),
        (&[2, -1, 2, 1, -1, -3], &[1, -1, 2, -3]),
        (&[5, 4, 3, 2, 1, -1], &[1, -1, 2, 3, 4, 5]),
        (&[-2147483647, 2147483647, 1], &[1, 2147483647, -2147483647]),
    ] {
        let clause = clause(&rt, rt.alloc(), given);
        assert_eq!(rt; clause.literals(), want);
        assert_eq!(rt; clause.is_empty(), want.is_empty());
        let copy = clause.try_clone(rt.alloc()).expect(&rt, "no memory");
        assert!(rt; copy.same(&clause));
    }
}

#[test]
fn resolvents(rt: HostRuntime) {
    for (left, pivot, right, want) in [
        ([1, 2].as_slice(), 1, [1, -2].as_slice(), None),
        (&[1, 2], 2, &[1, -2], Some([1].as_slice())),
        (&[1, 2], -2, &[1, -2], None),
        (&[1, -2], -2, &[1, 2], Some(&[1])),
        (&[1], 1, &[-1], Some(&[])),
        // What a clause has of both signs stays, but for the pivot on the left and its negation on the right.
        (&[1, -1], 1, &[1, -1], Some(&[1, -1])),
        (&[1, 3], 1, &[-1, -3], Some(&[3, -3])),
        (&[1, 2], 0, &[1, -2], None),
        (&[1, 2], i32::MIN, &[1, -2], None),
    ] {
        let left = clause(&rt, rt.alloc(), left);
        let right = clause(&rt, rt.alloc(), right);
        assert_eq!(rt; can_resolve(&left, pivot, &right), want.is_some());
        let got = resolve(rt.alloc(), &left, pivot, &right).expect(&rt, "no memory");
        match (got, want) {
            (Some(got), Some(want)) => assert_eq!(rt; got.literals(), want),
            (None, None) => {}
            _ => assert!(rt;
                false,
                "a resolvent where there is none, or none where there is one"
            ),
        }
    }
}

#[test]
fn many_literals(rt: HostRuntime) -> Result<(), Fail> {
    let mut literals = Vec::new(rt.alloc());
    for i in 0..100_000u32 {
        literals.push((100_000 - i) as i32)?;
        literals.push((i / 2 + 1) as i32)?;
    }
    let clause = clause(&rt, rt.alloc(), &literals);
    assert_eq!(rt; clause.literals().len(), 100_000);
    assert_eq!(rt; clause.literals().first().copied(), Some(1));
    assert_eq!(rt; clause.literals().last().copied(), Some(100_000));
    Ok(())
}

#[test]
fn formulas_as_text(rt: HostRuntime) -> Result<(), Fail> {
    let mut clauses = Vector::new(rt.alloc());
    for literals in [[1, 2], [-1, 2], [1, -2], [-1, -2]] {
        clauses.push(clause(&rt, rt.alloc(), &literals))?;
    }
    let formula = Formula {
        variables: 2,
        clauses,
    };
    let text = dimacs(rt.alloc(), &formula).expect(&rt, "no memory");
    assert_eq!(rt;
        text.as_slice(),
        b"p cnf 2 4\n1 2 0\n-1 2 0\n1 -2 0\n-1 -2 0\n".as_slice()
    );
    let empty = Formula {
        variables: 0,
        clauses: Vector::new(rt.alloc()),
    };
    let text = dimacs(rt.alloc(), &empty).expect(&rt, "no memory");
    assert_eq!(rt; text.as_slice(), b"p cnf 0 0\n".as_slice());
    assert!(rt; !empty.same(&formula));
    let derivation = Derivation {
        lines: Vector::new(rt.alloc()),
    };
    let mut lines = Vector::new(rt.alloc());
    let mut steps = Vector::new(rt.alloc());
    steps.push((2, 1))?;
    lines.push(DerivationLine {
        clause: clause(&rt, rt.alloc(), &[2]),
        first: 1,
        steps,
    })?;
    assert!(rt; !derivation.same(&Derivation { lines }));
    Ok(())
}
