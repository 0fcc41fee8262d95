// A certificate of two variables worked by hand, each change of one of its bytes, pigeons, and a long chain.
mod pigeons;

use certificate::{Difference, compare, read_certificate, write_certificate};
use cnf::{Clause, Derivation, Formula, are_literals};
use containers::{Same, Vector};
use derivation_check::{Checker, Verdict};
use fq_core::{Fault, Place, Refusal};
use pigeons::PIGEONS;
use std::alloc::Global;
use std::process::Abort;
use std::test::Fail;

const WORKED: &str =
    "fshell certificate 1\np cnf 2 4\n1 2 0\n-1 2 0\n1 -2 0\n-1 -2 0\nderivation 3\n2 0 1 2 1 0\n-2 0 3 4 1 0\n0 5 6 2 0\n";

#[derive(Clone, Copy, Debug, PartialEq, Eq)]
enum Answer {
    Checked(Verdict),
    BadLine(u32),
    Else,
}

const YES: Answer = Answer::Checked(Verdict::Yes);

const NO_EMPTY_CLAUSE: Answer = Answer::Checked(Verdict::NoEmptyClause);

fn bad_step(line: u32) -> Answer {
    Answer::Checked(Verdict::BadStep { line })
}

// What reader and checker say of a text, after a test that what is read is written as the same text.
fn answer_of(rt: &impl Abort, alloc: Global, text: &[u8]) -> Answer {
    assert!(rt; text.len() < 0x1_0000_0000);
    match read_certificate(alloc, text) {
        Ok((formula, derivation)) => {
            let written = write_certificate(alloc, &formula, &derivation).expect(rt, "no memory");
            assert!(rt; written.as_slice() == text);
            Answer::Checked(verdict(rt, alloc, &formula, &derivation))
        }
        Err(
            Fault::Refused(
                Refusal {
                    code: 90,
                    place: Place::Line { number },
                },
            ),
        ) => Answer::BadLine(number),
        Err(_) => Answer::Else,
    }
}

fn verdict(rt: &impl Abort, alloc: Global, formula: &Formula, derivation: &Derivation) -> Verdict {
    assert!(rt; derivation.lines.len() < 0x1_0000_0000);
    let mut checker = Checker::prepare(alloc, formula, derivation).expect(rt, "no memory");
    let first = checker.check();
    assert_eq!(rt;
        checker.check(),
        first,
        "a second check answers as the first"
    );
    first
}

// The worked text with other lines from one of its lines on, up to another.
fn with_lines(alloc: Global, from: usize, to: usize, new: &str) -> Result<String, Fail> {
    let mut text = String::new(alloc);
    let mut number: usize = 0;
    for line in WORKED.lines() {
        number = number.saturating_add(1);
        if number == from {
            text.push_str(new)?;
        }
        if number < from || number >= to {
            text.push_str(line)?;
            text.push_str("\n")?;
        }
    }
    if number < from {
        text.push_str(new)?;
    }
    Ok(text)
}

#[test]
fn worked_certificate_and_its_changes(rt: HostRuntime) -> Result<(), Fail> {
    let alloc = rt.alloc();
    assert_eq!(rt; answer_of(&rt, alloc, WORKED.as_bytes()), YES);
    for (from, to, new, want) in [
        (1, 2, "fshell certificate 2\n", Answer::BadLine(1)),
        (1, 2, "fshell certificate 1 \n", Answer::BadLine(1)),
        (1, 1, "\n", Answer::BadLine(1)),
        (2, 3, "p cnf 1073741825 4\n", Answer::BadLine(2)),
        (2, 3, "p cnf 2 4294967296\n", Answer::BadLine(2)),
        (2, 3, "p cnf 02 4\n", Answer::BadLine(2)),
        (2, 3, "p cnf 2  4\n", Answer::BadLine(2)),
        (2, 3, "p cnf 2 4 \n", Answer::BadLine(2)),
        (2, 3, "p cnf 2\n", Answer::BadLine(2)),
        (2, 3, "p cnf 2 4294967295\n", Answer::BadLine(7)),
        (2, 3, "p cnf 2 3\n", Answer::BadLine(6)),
        (2, 3, "p cnf 2 5\n", Answer::BadLine(7)),
        (2, 3, "p cnf 1 4\n", Answer::BadLine(3)),
        (2, 3, "p cnf 3 4\n", YES),
        (3, 4, "2 1 0\n", Answer::BadLine(3)),
        (3, 4, "1 1 0\n", Answer::BadLine(3)),
        (3, 4, "-1 1 0\n", Answer::BadLine(3)),
        (3, 4, "1 -1 2 0\n", bad_step(1)),
        (3, 4, "1 3 0\n", Answer::BadLine(3)),
        (3, 4, "01 2 0\n", Answer::BadLine(3)),
        (3, 4, "-0 2 0\n", Answer::BadLine(3)),
        (3, 4, "+1 2 0\n", Answer::BadLine(3)),
        (3, 4, "1 2\n", Answer::BadLine(3)),
        (3, 4, "1 2 0 \n", Answer::BadLine(3)),
        (3, 4, "1 2 0 0\n", Answer::BadLine(3)),
        (3, 4, "\n", Answer::BadLine(3)),
        (7, 8, "derivation 4294967296\n", Answer::BadLine(7)),
        (7, 8, "derivation 03\n", Answer::BadLine(7)),
        (7, 8, "derivation 4294967295\n", Answer::BadLine(11)),
        (7, 8, "derivation 2\n", Answer::BadLine(10)),
        (7, 11, "derivation 0\n", NO_EMPTY_CLAUSE),
        (7, 11, "", Answer::BadLine(7)),
        (10, 11, "", Answer::BadLine(10)),
        (10, 11, "0 5 6 2 0", Answer::BadLine(10)),
        (11, 11, "0\n", Answer::BadLine(11)),
        (11, 11, "\n", Answer::BadLine(11)),
        (11, 11, " ", Answer::BadLine(11)),
        (8, 9, "2 0 5 2 1 0\n", bad_step(1)),
        (8, 9, "1 2 0 1 2 1 0\n", bad_step(1)),
        (8, 9, "0 1 2 1 0\n", bad_step(1)),
        (8, 9, "2 0 1 2 1\n", Answer::BadLine(8)),
        (8, 9, "2 0 1 2 1 3 0\n", Answer::BadLine(8)),
        (8, 9, "2 0 0 2 1 0\n", Answer::BadLine(8)),
        (8, 9, "2 0 1 0 1 0\n", Answer::BadLine(8)),
        (8, 9, "2 0 1 2 3 0\n", Answer::BadLine(8)),
        (8, 9, "2 0 4294967295 2 1 0\n", bad_step(1)),
        (8, 9, "2 0 4294967296 2 1 0\n", Answer::BadLine(8)),
        (8, 9, "1 2 0 1 0\n", bad_step(3)),
        (9, 10, "-2 0 3 4 -1 0\n", bad_step(2)),
        (9, 10, "1 -2 0 3 3 -1 0\n", bad_step(2)),
        (9, 10, "-2 0 3 6 1 0\n", bad_step(2)),
        (9, 10, "-2 0 4 3 -1 0\n", YES),
        (10, 11, "0 5 6 -2 0\n", bad_step(3)),
        (10, 11, "2 0 1 2 1 0\n", NO_EMPTY_CLAUSE),
        (10, 11, "0 5 6 2 5 6 0\n", Answer::BadLine(10)),
    ] {
        let text = with_lines(alloc, from, to, new)?;
        assert_eq!(rt;
            answer_of(&rt, alloc, text.as_bytes()),
            want,
            "{from} {new}"
        );
    }
    let without_last = WORKED.replace(alloc, "derivation 3", "derivation 2")?;
    let without_last = without_last.replace(alloc, "0 5 6 2 0\n", "")?;
    assert_eq!(rt;
        answer_of(&rt, alloc, without_last.as_bytes()),
        NO_EMPTY_CLAUSE
    );
    assert_eq!(rt; answer_of(&rt, alloc, b""), Answer::BadLine(1));
    Ok(())
}

// Whether an assignment of the first variables, given as the bits of a number, satisfies a formula.
fn satisfies(assignment: u32, formula: &Formula) -> bool {
    formula.clauses.iter().all(|clause| {
        clause.literals().iter().any(|literal| {
            let variable = literal.unsigned_abs();
            variable < 32 && ((assignment >> variable) & 1 == 1) == (*literal > 0)
        })
    })
}

// The reader refuses a text at one of its lines or the one after, or gives a pair of which the checker's Yes is right.
fn assert_fair(rt: &impl Abort, alloc: Global, text: &[u8]) {
    assert!(rt; text.len() < 0x1_0000_0000);
    match read_certificate(alloc, text) {
        Ok((formula, derivation)) => {
            if verdict(rt, alloc, &formula, &derivation) == Verdict::Yes {
                assert_no_model(rt, &formula);
            }
        }
        Err(
            Fault::Refused(
                Refusal {
                    code: 90,
                    place: Place::Line { number },
                },
            ),
        ) => assert!(rt; 1 <= number && number <= 12),
        Err(_) => assert!(rt; false, "another fault"),
    }
}

// No clause here has a variable above 9.
fn assert_no_model(rt: &impl Abort, formula: &Formula) {
    for assignment in 0..1024 {
        assert!(rt; !satisfies(assignment, formula));
    }
}

#[test]
fn each_byte_changed(rt: HostRuntime) -> Result<(), Fail> {
    let alloc = rt.alloc();
    let mut text = Vec::from_slice(alloc, WORKED.as_bytes())?;
    for at in 0..text.len() {
        let old = text[at];
        for byte in [
            b'0', b'1', b'2', b'3', b'4', b'5', b'9', b'-', b' ', b'\n', b'p',
        ] {
            text[at] = byte;
            assert_fair(&rt, alloc, &text);
        }
        text[at] = old;
    }
    Ok(())
}

#[test]
fn pigeons_do_not_fit(rt: HostRuntime) -> Result<(), Fail> {
    let alloc = rt.alloc();
    assert_eq!(rt; answer_of(&rt, alloc, PIGEONS.as_bytes()), YES);
    // Without the clause of the last pigeon there is room.
    let roomy = PIGEONS.replace(alloc, "\n17 18 19 20 0\n", "\n17 18 19 -20 20 0\n")?;
    assert_eq!(rt; answer_of(&rt, alloc, roomy.as_bytes()), Answer::BadLine(7));
    let weaker = PIGEONS.replace(alloc, "\n17 18 19 20 0\n", "\n17 18 19 20 -20 0\n")?;
    assert_eq!(rt; answer_of(&rt, alloc, weaker.as_bytes()), bad_step(47));
    Ok(())
}

fn formula(rt: &impl Abort, alloc: Global, variables: u32, clauses: &[[i32; 2]]) -> Formula {
    let mut list = Vector::new(alloc);
    for literals in clauses {
        assert!(rt; are_literals(literals));
        let clause = Clause::new(alloc, literals).expect(rt, "no memory");
        list.push(clause).expect(rt, "no memory");
    }
    Formula {
        variables,
        clauses: list,
    }
}

#[test]
fn first_differences(rt: HostRuntime) {
    let worked = [[1, 2], [-1, 2], [1, -2], [-1, -2]];
    let ours = formula(&rt, rt.alloc(), 2, &worked);
    for (variables, clauses, want) in [
        (2, worked.as_slice(), None),
        (
            3,
            &worked,
            Some(Difference::Variables { theirs: 3, ours: 2 }),
        ),
        (
            2,
            &[[1, 2], [-1, 2], [1, 2], [-1, -2]],
            Some(Difference::ClauseAt { index: 3 }),
        ),
        (2, &[], Some(Difference::ClauseAt { index: 1 })),
        (
            2,
            &[[1, 2], [-1, 2], [1, -2]],
            Some(Difference::ClauseAt { index: 4 }),
        ),
        (
            2,
            &[[1, 2], [-1, 2], [1, -2], [-1, -2], [1, 1]],
            Some(Difference::ClauseAt { index: 5 }),
        ),
        (
            2,
            &[[-1, 2], [-1, 2], [1, 2], [-1, -2]],
            Some(Difference::ClauseAt { index: 1 }),
        ),
    ] {
        let theirs = formula(&rt, rt.alloc(), variables, clauses);
        assert!(rt; theirs.clauses.len() < 0x1_0000_0000 && ours.clauses.len() < 0x1_0000_0000);
        assert_eq!(rt; compare(&theirs, &ours), want);
        assert_eq!(rt; theirs.same(&ours), want.is_none());
    }
}

// Variable 1, each variable with the next one, and not the last: a line for each of so many resolutions.
fn long_chain(alloc: Global, length: u32) -> Result<String, Fail> {
    let mut text = format!(in alloc;
        "fshell certificate 1\np cnf {length} {}\n1 0\n",
        length.saturating_add(1)
    )?;
    for k in 1..length {
        let next = k.saturating_add(1);
        text.push_str(format!(in alloc; "-{k} {next} 0\n")?.as_str())?;
    }
    text.push_str(format!(in alloc; "-{length} 0\nderivation {length}\n")?.as_str())?;
    let own = length.saturating_add(1);
    for k in 1..length {
        let next = k.saturating_add(1);
        let first = if k == 1 {
            1
        } else {
            own.saturating_add(k.saturating_sub(1))
        };
        text.push_str(format!(in alloc; "{next} 0 {first} {next} {k} 0\n")?.as_str())?;
    }
    let last = own.saturating_add(length.saturating_sub(1));
    text.push_str(format!(in alloc; "0 {last} {own} {length} 0\n")?.as_str())?;
    Ok(text)
}

#[test]
fn a_long_chain(rt: HostRuntime) -> Result<(), Fail> {
    let text = long_chain(rt.alloc(), 100_000)?;
    assert_eq!(rt; answer_of(&rt, rt.alloc(), text.as_bytes()), YES);
    Ok(())
}

// The worked certificate over variables 5 and 2^30, with another second line.
fn with_gaps(alloc: Global, second: &str) -> Result<String, Fail> {
    let mut text = String::new(alloc);
    text.push_str("fshell certificate 1\np cnf 1073741824 4\n5 1073741824 0\n-5 1073741824 0\n")?;
    text.push_str("5 -1073741824 0\n-5 -1073741824 0\nderivation 3\n1073741824 0 1 2 5 0\n")?;
    text.push_str(second)?;
    text.push_str("\n0 5 6 1073741824 0\n")?;
    Ok(text)
}

#[test]
fn variables_with_great_gaps(rt: HostRuntime) -> Result<(), Fail> {
    let alloc = rt.alloc();
    for (second, want) in [
        ("-1073741824 0 3 4 5 0", YES),
        ("-1073741824 0 4 3 -5 0", YES),
        ("-1073741824 0 3 4 -5 0", bad_step(2)),
        ("-1073741824 0 3 4 6 0", bad_step(2)),
        ("-1073741823 0 3 4 5 0", bad_step(2)),
        ("5 -1073741824 0 3 4 5 0", bad_step(2)),
        ("1073741824 0 3 4 5 0", bad_step(2)),
    ] {
        let text = with_gaps(alloc, second)?;
        assert_eq!(rt; answer_of(&rt, alloc, text.as_bytes()), want, "{second}");
    }
    Ok(())
}
