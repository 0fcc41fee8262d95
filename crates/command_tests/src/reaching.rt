// The commands `bounds`, `prove-bounds`, `check-bounds`, `least`, `traces`, `replay`, `trees` and
// `events`.
use crate::searching::{SOURCES, text_of};
use crate::tests::{A_C, QUERY, TWO_INPUTS, compare, files, words};
use command::*;
use fq_io::{Take, VecSink};
use search::{KeepWatch, NoWatch};
use std::alloc::Global;
use std::process::Abort;
use std::test::Fail;

// The loop takes as many turns as its input, which is at most 3.
const L_C: &str =
    "int f(int n) {\n  if (n > 3) {\n    return 0;\n  }\n  int i = 0;\n  while (i < n) {\n    i = i + 1;\n  }\n  return i;\n}\n";

// The loop always takes three turns.
const T_C: &str =
    "int f(int x) {\n  int s = 0;\n  for (int i = 0; i < 3; i++) {\n    s = s + x;\n  }\n  return s;\n}\n";

const N_C: &str = "int f(int x) {\n  if (x < 0) {\n    return 1;\n  }\n  return 0;\n}\n";

const H_C: &str = "int f(int i) {\n  int a[4];\n  a[i] = 1;\n  return a[0];\n}\n";

// Bounds of which the answer is determined, and a budget that is spent.
#[test]
fn bounds_that_suffice_or_not(rt: HostRuntime) -> Result<(), Fail> {
    for (words, source, want) in [
        (
            ["bounds", "f", "x.c"].as_slice(),
            A_C,
            (
                Status::Done,
                "bounds suffice turns 4 frames 8 answers 16\n",
                "",
            ),
        ),
        (
            &["bounds", "--turns", "3", "f", "x.c"],
            T_C,
            (
                Status::Done,
                "bounds suffice turns 3 frames 8 answers 16\n",
                "",
            ),
        ),
        (
            &["bounds", "--turns", "3", "f", "x.c"],
            L_C,
            (
                Status::Done,
                "bounds suffice turns 3 frames 8 answers 16\n",
                "",
            ),
        ),
        (
            &["bounds", "--turns", "2", "f", "x.c"],
            L_C,
            (Status::Done, "bounds left args 3\n", ""),
        ),
        (
            &["bounds", "--turns", "2", "--budget", "1", "f", "x.c"],
            L_C,
            (Status::DoneOpen, "bounds open\n", ""),
        ),
        (
            &["bounds", "g", "x.c"],
            A_C,
            (Status::SourceRefused, "", "error 36 NoSuchEntry\n"),
        ),
    ] {
        compare(&rt, rt.alloc(), words, &[("x.c", source)], want)?;
    }
    Ok(())
}

// What `prove-bounds` writes where they don't suffice is what `bounds` writes.
#[test]
fn bounds_without_a_certificate(rt: HostRuntime) -> Result<(), Fail> {
    for (words, want) in [
        (
            ["prove-bounds", "--turns", "2", "f", "x.c"].as_slice(),
            (Status::Done, "bounds left args 3\n", ""),
        ),
        (
            &["prove-bounds", "--turns", "2", "--budget", "1", "f", "x.c"],
            (Status::DoneOpen, "bounds open\n", ""),
        ),
        (
            &["prove-bounds", "g", "x.c"],
            (Status::SourceRefused, "", "error 36 NoSuchEntry\n"),
        ),
        (
            &["check-bounds", "g", "no.cert", "x.c"],
            (Status::SourceRefused, "", "error 36 NoSuchEntry\n"),
        ),
        (
            &["check-bounds", "f", "no.cert", "x.c"],
            (Status::ReadFault, "", "error 7 ReadFault no.cert\n"),
        ),
        (
            &["check-bounds", "f", "x.c", "x.c"],
            (
                Status::CertificateRejected,
                "",
                "error 90 CertificateForm line 1\n",
            ),
        ),
    ] {
        compare(&rt, rt.alloc(), words, &[("x.c", L_C)], want)?;
    }
    Ok(())
}

// Checks a certificate of the bounds of `l.c`, and compares the status and the text on `out`; of the line on `err` only the
// beginning.
fn compare_check_bounds(
    rt: &impl Abort,
    alloc: Global,
    turns: &str,
    certificate: &str,
    want: (Status, &str, &str),
) -> Result<(), Fail> {
    let entries = [("l.c", L_C), ("l.cert", certificate)];
    let mut files = files(alloc, &entries, &[])?;
    let words = words(
        alloc,
        &["check-bounds", "--turns", turns, "f", "l.cert", "l.c"],
    )?;
    let mut out = VecSink::new(alloc);
    let mut err = VecSink::new(alloc);
    let status = run(alloc, &words, &mut files, &mut out, &mut err, &mut NoWatch);
    assert_eq!(rt; status, want.0);
    assert_eq!(rt; out.taken(), want.1.as_bytes());
    let line = str::from_utf8(err.taken())?;
    assert!(rt; line.starts_with(want.2), "{line}");
    Ok(())
}

// The certificate that is proved is accepted for its bounds, and for no others; nor is one of a goal, or one with its lines taken
// away.
#[test]
fn certificates_of_bounds(rt: HostRuntime) -> Result<(), Fail> {
    let alloc = rt.alloc();
    let sources = [("l.c", L_C)];
    let proved = ["prove-bounds", "--turns", "3", "f", "l.c"];
    let certificate = text_of(&rt, alloc, &proved, &sources)?;
    let refuted = ["prove", "--turns", "2", "f", "cover {i == 3}", "1", "l.c"];
    let goal = text_of(&rt, alloc, &refuted, &sources)?;
    let Some((formula, _)) = certificate.as_str().split_once("derivation ") else {
        return Err(Fail::from("no derivation"));
    };
    let none = format!(in alloc; "{formula}derivation 0\n")?;
    let rejected = Status::CertificateRejected;
    for (turns, certificate, want) in [
        (
            "3",
            certificate.as_str(),
            (
                Status::Done,
                "bounds suffice turns 3 frames 8 answers 16\n",
                "",
            ),
        ),
        (
            "2",
            certificate.as_str(),
            (rejected, "", "error 91 OtherFormula "),
        ),
        ("3", goal.as_str(), (rejected, "", "error 91 OtherFormula ")),
        (
            "3",
            none.as_str(),
            (rejected, "", "error 93 NoEmptyClause\n"),
        ),
    ] {
        compare_check_bounds(&rt, alloc, turns, certificate, want)?;
    }
    Ok(())
}

#[test]
fn least_inputs(rt: HostRuntime) -> Result<(), Fail> {
    let alloc = rt.alloc();
    for (words, want) in [
        (
            ["least", "f", "cover @LINE(3)", "1", "a.c"].as_slice(),
            (Status::Done, "goal 1 least args 11\n", ""),
        ),
        (
            &["least", "f", "cover @LINE(5)", "1", "a.c"],
            (Status::Done, "goal 1 least args 0\n", ""),
        ),
        (
            &["least", "f", "cover @LINE(9)", "1", "i.c"],
            (Status::Done, "goal 1 least args 1 answers 5 9\n", ""),
        ),
        (
            &["least", "f", "cover @LINE(3)", "1", "c.c"],
            (
                Status::Done,
                "goal 1 refuted turns 4 frames 8 answers 16\n",
                "",
            ),
        ),
        (
            &["least", "--budget", "1", "f", "cover @LINE(3)", "1", "d.c"],
            (Status::DoneOpen, "goal 1 open\n", ""),
        ),
        (
            &["least", "f", "cover @LINE(3)", "2", "a.c"],
            (Status::QueryRefused, "", "error 74 NoSuchGoal query\n"),
        ),
    ] {
        compare(&rt, alloc, words, &SOURCES, want)?;
    }
    let negative = ["least", "f", "cover @LINE(3)", "1", "n.c"];
    let want = (Status::Done, "goal 1 least args 2147483648\n", "");
    compare(&rt, alloc, &negative, &[("n.c", N_C)], want)
}

// The watch is shown what stays open: number 0 for bounds.
#[test]
fn open_bounds_are_shown(rt: HostRuntime) -> Result<(), Fail> {
    let alloc = rt.alloc();
    let words = words(
        alloc,
        &["bounds", "--turns", "2", "--budget", "1", "f", "l.c"],
    )?;
    let mut files = files(alloc, &[("l.c", L_C)], &[])?;
    let mut out = VecSink::new(alloc);
    let mut err = VecSink::new(alloc);
    let mut watch = KeepWatch::new(alloc);
    let status = run(alloc, &words, &mut files, &mut out, &mut err, &mut watch);
    assert_eq!(rt; status, Status::DoneOpen);
    assert_eq!(rt; watch.list.len(), 1);
    let Some((goal, _formula, history)) = watch.list.get(0) else {
        return Err(Fail::from("nothing was shown"));
    };
    assert_eq!(rt; *goal, 0);
    assert_eq!(rt; history.moves.len(), 1);
    Ok(())
}

const TRACES: &str = "fshell traces 1\nargs 5 edges 1 3\nargs 11 edges 0 2\n";

// Traces are written, and measured again; a file that is no trace file, and one with another run.
#[test]
fn traces_are_replayed(rt: HostRuntime) -> Result<(), Fail> {
    let held = [
        ("a.c", A_C),
        ("h.c", H_C),
        ("in.txt", "5\n11\n"),
        ("four.txt", "4\n0\n"),
        ("right.txt", TRACES),
        ("other.txt", "fshell traces 1\nargs 5 edges 0 2\n"),
        ("short.txt", "fshell traces 1\nargs 5 edges 1\n"),
        ("bare.txt", "args 5 edges 1 3\n"),
        ("trap.txt", "fshell traces 1\nargs 4 edges 0\n"),
    ];
    for (words, want) in [
        (
            ["traces", "f", "in.txt", "a.c"].as_slice(),
            (Status::Done, TRACES, ""),
        ),
        (
            &["traces", "--steps", "1", "f", "in.txt", "a.c"],
            (Status::Done, "fshell traces 1\n", ""),
        ),
        (
            &["traces", "--ends", "trapped", "f", "four.txt", "h.c"],
            (
                Status::Done,
                "fshell traces 1\nargs 4 edges 0\nargs 0 edges 0 1 2\n",
                "",
            ),
        ),
        (
            &["replay", "f", QUERY, "right.txt", "a.c"],
            (Status::Done, TWO_INPUTS, ""),
        ),
        (
            &["replay", "f", QUERY, "other.txt", "a.c"],
            (Status::InputRefused, "", "error 56 NotTheRun line 2\n"),
        ),
        (
            &["replay", "f", QUERY, "short.txt", "a.c"],
            (Status::InputRefused, "", "error 56 NotTheRun line 2\n"),
        ),
        (
            &["replay", "f", QUERY, "bare.txt", "a.c"],
            (Status::InputRefused, "", "error 55 TraceForm line 1\n"),
        ),
        (
            &["replay", "f", QUERY, "trap.txt", "h.c"],
            (Status::InputRefused, "", "error 56 NotTheRun line 2\n"),
        ),
        (
            &["replay", "--ends", "trapped", "f", QUERY, "trap.txt", "h.c"],
            (
                Status::Done,
                "goals 3 inputs 1 ends trapped\ninput 1 trapped index\ngoal 1 covered 1 e0@h.c:2\n\
goal 2 missed e1@h.c:3\ngoal 3 missed e2@h.c:4\nsuite 1\ncovered 1 of 3\n",
                "",
            ),
        ),
    ] {
        compare(&rt, rt.alloc(), words, &held, want)?;
    }
    Ok(())
}

// A call of `f` stands in each activation of `f`, behind that of `g`.
const R_C: &str =
    "int f(int n) {\n  if (n <= 0) {\n    return 0;\n  }\n  return 1 + f(n - 1);\n}\nint g(int n) {\n  if (f(n) == 2) {\n    return 1;\n  }\n  return 0;\n}\n";

// The loop takes as many turns as its input.
const E_C: &str =
    "int f(int n) {\n  int i = 0;\n  while (i < n) {\n    i = i + 1;\n  }\n  if (i == 3) {\n    return 1;\n  }\n  return 0;\n}\n";

// Each way in which a run ends by the meaning of the trees, and refusals.
#[test]
fn ends_on_trees(rt: HostRuntime) -> Result<(), Fail> {
    let held = [
        ("e.c", E_C),
        ("h.c", H_C),
        ("r.c", R_C),
        ("wrong.c", "int f(int x) { return y; }\n"),
        ("three.txt", "3\n"),
        ("four.txt", "4\n"),
        ("deep.txt", "2\n62\n63\n"),
        ("two.txt", "1 2\n"),
    ];
    for (words, want) in [
        (
            ["trees", "g", "deep.txt", "r.c"].as_slice(),
            (
                Status::Done,
                "input 1 returned 1\ninput 2 returned 0\ninput 3 too-deep\n",
                "",
            ),
        ),
        (
            &["trees", "--steps", "3", "f", "three.txt", "e.c"],
            (Status::Done, "input 1 returned 1\n", ""),
        ),
        (
            &["trees", "--steps", "2", "f", "three.txt", "e.c"],
            (Status::Done, "input 1 cut\n", ""),
        ),
        (
            &["trees", "f", "four.txt", "h.c"],
            (Status::Done, "input 1 trapped index\n", ""),
        ),
        (
            &["trees", "g", "four.txt", "h.c"],
            (Status::SourceRefused, "", "error 36 NoSuchEntry\n"),
        ),
        (
            &["trees", "g", "two.txt", "wrong.c"],
            (Status::SourceRefused, "", "error 30 Unknown wrong.c:1\n"),
        ),
        (
            &["trees", "f", "two.txt", "e.c"],
            (Status::InputRefused, "", "error 51 Shape input 1\n"),
        ),
        (
            &["trees", "f", "none.txt", "e.c"],
            (Status::ReadFault, "", "error 7 ReadFault none.txt\n"),
        ),
    ] {
        compare(&rt, rt.alloc(), words, &held, want)?;
    }
    Ok(())
}

// What happens in a run, the same cut, and refusals.
#[test]
fn events(rt: HostRuntime) -> Result<(), Fail> {
    let held = [("e.c", E_C), ("one.txt", "1\n"), ("two.txt", "1 2\n")];
    for (words, want) in [
        (
            ["events", "f", "one.txt", "e.c"].as_slice(),
            (
                Status::Done,
                "input 1 returned 0\ndid DECL e.c:2:3 i\nenters WHILE e.c:3:3\noutcome WHILE e.c:3:10 true settles\n\
did ASSIGN e.c:4:5 i\nagain WHILE e.c:3:3\noutcome WHILE e.c:3:10 false settles\noutcome IF e.c:6:7 false settles\n\
did RETURN e.c:9:3\n",
                "",
            ),
        ),
        (
            &["events", "--steps", "2", "f", "one.txt", "e.c"],
            (
                Status::Done,
                "input 1 cut\ndid DECL e.c:2:3 i\nenters WHILE e.c:3:3\n",
                "",
            ),
        ),
        (
            &["events", "f", "two.txt", "e.c"],
            (Status::InputRefused, "", "error 51 Shape input 1\n"),
        ),
        (
            &["events", "f", "none.txt", "e.c"],
            (Status::ReadFault, "", "error 7 ReadFault none.txt\n"),
        ),
    ] {
        compare(&rt, rt.alloc(), words, &held, want)?;
    }
    Ok(())
}
