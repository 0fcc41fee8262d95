// The commands that search inputs: `generate`, `prove`, `check` and `sample`.
use crate::tests::{A_C, compare, files, words};
use command::*;
use fq_io::{MemorySink, Take, VecSink};
use search::{KeepWatch, NoWatch};
use std::alloc::Global;
use std::process::Abort;
use std::test::Fail;

const C_C: &str = "int f(int x) {\n  if (x > 10 && x < 5) {\n    return 1;\n  }\n  return 0;\n}\n";

const D_C: &str = "int f(int x) {\n  if (x == 7) {\n    return 1;\n  }\n  return 0;\n}\n";

const E_C: &str =
    "int f(int n) {\n  int i = 0;\n  while (i < n) {\n    i = i + 1;\n  }\n  if (i == 3) {\n    return 1;\n  }\n  return 0;\n}\n";

const G_C: &str =
    "int f(int n) {\n  int c = 0;\n  for (int i = 0; i < 2; i++) {\n    for (int j = 0; j < n; j++) {\n      c = c + 1;\n    }\n  }\n  if (c == 6) {\n    return 1;\n  }\n  return 0;\n}\n";

const H_C: &str = "int f(int i) {\n  int a[4];\n  a[i] = 1;\n  return a[0];\n}\n";

const I_C: &str =
    "int in(void);\nint f(int x) {\n  int s = 0;\n  if (x == 1) {\n    s = in();\n  }\n  int t = in();\n  if (s == 5 && t == 9) {\n    return 1;\n  }\n  return 0;\n}\n";

const R_C: &str =
    "int f(int n) {\n  if (n <= 0) {\n    return 0;\n  }\n  return 1 + f(n - 1);\n}\nint g(int n) {\n  if (f(n) == 2) {\n    return 1;\n  }\n  return 0;\n}\n";

const U_C: &str =
    "#include <stdint.h>\nint f(uint8_t x) {\n  if (x + 1 == 256) {\n    return 1;\n  }\n  return 0;\n}\n";

pub const SOURCES: [(&str, &str); 9] = [
    ("a.c", A_C),
    ("c.c", C_C),
    ("d.c", D_C),
    ("e.c", E_C),
    ("g.c", G_C),
    ("h.c", H_C),
    ("i.c", I_C),
    ("r.c", R_C),
    ("u.c", U_C),
];

const ONE_COVERED: &str = "suite 1\ncovered 1 refuted 0 undecided 0 of 1\n";

const ONE_REFUTED: &str = "suite\ncovered 0 refuted 1 undecided 0 of 1\n";

// A loop's last turn, a counter that starts anew, a kind's range, frames, and answers: each is covered within bounds by the one
// input that does it, and refuted within bounds that are one less.
#[test]
fn made_inputs(rt: HostRuntime) -> Result<(), Fail> {
    let alloc = rt.alloc();
    for (words, first, goal, covered) in [
        (
            ["generate", "--turns", "3", "f", "cover @LINE(7)", "e.c"].as_slice(),
            "goals 1 turns 3 frames 8 answers 16 budget 5000000\ninput 1 args 3\n",
            "goal 1 covered 1 e8@e.c:7\n",
            true,
        ),
        (
            &["generate", "--turns", "2", "f", "cover @LINE(7)", "e.c"],
            "goals 1 turns 2 frames 8 answers 16 budget 5000000\n",
            "goal 1 refuted e8@e.c:7\n",
            false,
        ),
        (
            &["generate", "--turns", "3", "f", "cover @LINE(9)", "g.c"],
            "goals 1 turns 3 frames 8 answers 16 budget 5000000\ninput 1 args 3\n",
            "goal 1 covered 1 e16@g.c:9\n",
            true,
        ),
        (
            &["generate", "--turns", "2", "f", "cover @LINE(9)", "g.c"],
            "goals 1 turns 2 frames 8 answers 16 budget 5000000\n",
            "goal 1 refuted e16@g.c:9\n",
            false,
        ),
        (
            &["generate", "--turns", "4", "f", "cover @LINE(4)", "u.c"],
            "goals 1 turns 4 frames 8 answers 16 budget 5000000\ninput 1 args 255\n",
            "goal 1 covered 1 e2@u.c:4\n",
            true,
        ),
        (
            &["generate", "--frames", "4", "g", "cover @LINE(9)", "r.c"],
            "goals 1 turns 4 frames 4 answers 16 budget 5000000\ninput 1 args 2\n",
            "goal 1 covered 1 e10@r.c:9\n",
            true,
        ),
        (
            &["generate", "--frames", "3", "g", "cover @LINE(9)", "r.c"],
            "goals 1 turns 4 frames 3 answers 16 budget 5000000\n",
            "goal 1 refuted e10@r.c:9\n",
            false,
        ),
        (
            &["generate", "--answers", "2", "f", "cover @LINE(9)", "i.c"],
            "goals 1 turns 4 frames 8 answers 2 budget 5000000\ninput 1 args 1 answers 5 9\n",
            "goal 1 covered 1 e11@i.c:9\n",
            true,
        ),
        (
            &["generate", "--answers", "1", "f", "cover @LINE(9)", "i.c"],
            "goals 1 turns 4 frames 8 answers 1 budget 5000000\n",
            "goal 1 refuted e11@i.c:9\n",
            false,
        ),
    ] {
        let last = if covered { ONE_COVERED } else { ONE_REFUTED };
        let out = format!(in alloc; "{first}{goal}{last}")?;
        let want = (Status::Done, out.as_str(), "");
        compare(&rt, alloc, words, &SOURCES, want)?;
    }
    Ok(())
}

// A budget that is spent, the report as JSON, and what is refused of the work and of a goal's number.
#[test]
fn budgets_and_refusals(rt: HostRuntime) -> Result<(), Fail> {
    let alloc = rt.alloc();
    for (words, want) in [
        (
            ["generate", "--budget", "1", "f", "cover @LINE(3)", "d.c"].as_slice(),
            (
                Status::DoneOpen,
                "goals 1 turns 4 frames 8 answers 16 budget 1\ngoal 1 undecided e2@d.c:3\nsuite\n\
covered 0 refuted 0 undecided 1 of 1\n",
                "",
            ),
        ),
        (
            &["generate", "--json", "f", "cover @LINE(3)", "d.c"],
            (
                Status::Done,
                "{\"bounds\":{\"answers\":16,\"budget\":5000000,\"frames\":8,\"turns\":4},\"covered\":1,\"goals\":[{\"answer\":\"covered\",\"input\":1,\"text\":\"e2@d.c:3\"}],\"inputs\":[{\"answers\":[],\"args\":[7]}],\"refuted\":0,\"suite\":[1],\"undecided\":0}\n",
                "",
            ),
        ),
        (
            &["generate", "--turns", "1000", "f", "cover @LINE(9)", "g.c"],
            (Status::Limit, "", "error 80 TooManyInstances limit 50000\n"),
        ),
        (
            &["generate", "f", "cover \"(ID==40)==40\"", "a.c"],
            (Status::Limit, "", "error 82 GoalTooLarge limit 8388608\n"),
        ),
        (
            &["generate", "zz", "cover", "a.c"],
            (Status::SourceRefused, "", "error 36 NoSuchEntry\n"),
        ),
        (
            &["prove", "f", "cover EDGES(@CONDITIONEDGE)", "9", "c.c"],
            (Status::QueryRefused, "", "error 74 NoSuchGoal query\n"),
        ),
        (
            &[
                "check",
                "f",
                "cover EDGES(@CONDITIONEDGE)",
                "9",
                "no.cert",
                "c.c",
            ],
            (Status::QueryRefused, "", "error 74 NoSuchGoal query\n"),
        ),
        (
            &[
                "check",
                "f",
                "cover EDGES(@CONDITIONEDGE)",
                "3",
                "no.cert",
                "c.c",
            ],
            (Status::ReadFault, "", "error 7 ReadFault no.cert\n"),
        ),
        (
            &[
                "check",
                "f",
                "cover EDGES(@CONDITIONEDGE)",
                "3",
                "a.c",
                "c.c",
            ],
            (
                Status::CertificateRejected,
                "",
                "error 90 CertificateForm line 1\n",
            ),
        ),
        (
            &["generate", "f", "cover NODES(@LINE(3))$", "h.c"],
            (
                Status::Done,
                "goals 2 turns 4 frames 8 answers 16 budget 5000000\ngoal 1 refuted n2@h.c:3\ngoal 2 refuted n3@h.c:4\n\
suite\ncovered 0 refuted 2 undecided 0 of 2\n",
                "",
            ),
        ),
        (
            &["sample", "1"],
            (
                Status::Done,
                "sample 1 edges 9 goals 2 covered 2 refuted 0 undecided 0\n",
                "",
            ),
        ),
        (
            &["sample", "2"],
            (
                Status::Done,
                "sample 2 edges 16 goals 4 covered 4 refuted 0 undecided 0\n",
                "",
            ),
        ),
    ] {
        compare(&rt, alloc, words, &SOURCES, want)?;
    }
    Ok(())
}

// The text of an answer that is done.
pub fn text_of(
    rt: &impl Abort,
    alloc: Global,
    texts: &[&str],
    entries: &[(&str, &str)],
) -> Result<String, Fail> {
    let mut files = files(alloc, entries, &[])?;
    let words = words(alloc, texts)?;
    let mut out = VecSink::new(alloc);
    let mut err = VecSink::new(alloc);
    let status = run(alloc, &words, &mut files, &mut out, &mut err, &mut NoWatch);
    assert_eq!(rt; status, Status::Done);
    assert_eq!(rt; err.taken(), "".as_bytes());
    Ok(String::from_str(alloc, str::from_utf8(out.taken())?)?)
}

// The number behind a word.
fn number_after(text: &str, word: &str) -> Result<i64, Fail> {
    let Some((_, rest)) = text.split_once(word) else {
        return Err(Fail::from("the word isn't there"));
    };
    let Some((number, _)) = rest.split_once("\n") else {
        return Err(Fail::from("no line ends"));
    };
    Ok(number.parse::<i64>()?)
}

// Inputs whose values the search may choose, each on its side of the condition.
#[test]
fn chosen_inputs(rt: HostRuntime) -> Result<(), Fail> {
    let alloc = rt.alloc();
    let query = "cover EDGES(@CONDITIONEDGE)";
    let text = text_of(&rt, alloc, &["generate", "f", query, "c.c"], &SOURCES)?;
    let above = number_after(text.as_str(), "input 1 args ")?;
    let below = number_after(text.as_str(), "input 2 args ")?;
    assert!(rt; above > 10);
    assert!(rt; below <= 10);
    let want = format!(in alloc;
        "goals 4 turns 4 frames 8 answers 16 budget 5000000\ninput 1 args {above}\ninput 2 args {below}\n\
goal 1 covered 1 e0@c.c:2\ngoal 2 covered 2 e1@c.c:2\ngoal 3 refuted e2@c.c:2\ngoal 4 covered 1 e3@c.c:2\n\
suite 1 2\ncovered 3 refuted 1 undecided 0 of 4\n"
    )?;
    assert_eq!(rt; text.as_str(), want.as_str());
    let proved = text_of(&rt, alloc, &["prove", "f", query, "1", "c.c"], &SOURCES)?;
    let value = number_after(proved.as_str(), "goal 1 covered args ")?;
    assert!(rt; value > 10);
    let query = "cover NODES(@LINE(3))$";
    let words = ["generate", "--ends", "trapped", "f", query, "h.c"];
    let trapped = text_of(&rt, alloc, &words, &SOURCES)?;
    let value = number_after(trapped.as_str(), "input 1 args ")?;
    assert!(rt; value < 0 || value > 3);
    let want = format!(in alloc;
        "goals 2 turns 4 frames 8 answers 16 budget 5000000 ends trapped\ninput 1 args {value}\n\
goal 1 covered 1 n2@h.c:3\ngoal 2 refuted n3@h.c:4\nsuite 1\ncovered 1 refuted 1 undecided 0 of 2\n"
    )?;
    assert_eq!(rt; trapped.as_str(), want.as_str());
    Ok(())
}

// Checks a certificate of a goal of `c.c`, and compares the status and the text on `out`; of the line on `err` only the beginning.
fn compare_check(
    rt: &impl Abort,
    alloc: Global,
    goal: &str,
    certificate: &str,
    want: (Status, &str, &str),
) -> Result<(), Fail> {
    let entries = [("c.c", C_C), ("c.cert", certificate)];
    let mut files = files(alloc, &entries, &[])?;
    let query = "cover EDGES(@CONDITIONEDGE)";
    let words = words(alloc, &["check", "f", query, goal, "c.cert", "c.c"])?;
    let mut out = VecSink::new(alloc);
    let mut err = VecSink::new(alloc);
    let status = run(alloc, &words, &mut files, &mut out, &mut err, &mut NoWatch);
    assert_eq!(rt; status, want.0);
    assert_eq!(rt; out.taken(), want.1.as_bytes());
    let line = str::from_utf8(err.taken())?;
    assert!(rt; line.starts_with(want.2), "{line}");
    Ok(())
}

// The certificate that is proved is accepted for its goal, and for no other; nor is one with its lines taken away, or with a wrong
// one in their place.
#[test]
fn certificates(rt: HostRuntime) -> Result<(), Fail> {
    let alloc = rt.alloc();
    let query = "cover EDGES(@CONDITIONEDGE)";
    let certificate = text_of(&rt, alloc, &["prove", "f", query, "3", "c.c"], &SOURCES)?;
    let Some((formula, _)) = certificate.as_str().split_once("derivation ") else {
        return Err(Fail::from("no derivation"));
    };
    let none = format!(in alloc; "{formula}derivation 0\n")?;
    let wrong = format!(in alloc; "{formula}derivation 1\n0 1 0\n")?;
    let rejected = Status::CertificateRejected;
    for (goal, certificate, want) in [
        (
            "3",
            certificate.as_str(),
            (
                Status::Done,
                "goal 3 refuted turns 4 frames 8 answers 16\n",
                "",
            ),
        ),
        (
            "1",
            certificate.as_str(),
            (rejected, "", "error 91 OtherFormula "),
        ),
        (
            "3",
            "fshell certificate 1\np cnf 0 1\n0\nderivation 1\n0 1 0\n",
            (rejected, "", "error 91 OtherFormula variables 0 "),
        ),
        (
            "3",
            wrong.as_str(),
            (rejected, "", "error 92 BadStep line 1\n"),
        ),
        (
            "3",
            none.as_str(),
            (rejected, "", "error 93 NoEmptyClause\n"),
        ),
    ] {
        compare_check(&rt, alloc, goal, certificate, want)?;
    }
    Ok(())
}

// A goal that stays undecided is shown, with a history of as many moves as the budget.
#[test]
fn an_undecided_goal_is_shown(rt: HostRuntime) -> Result<(), Fail> {
    let alloc = rt.alloc();
    for (texts, want) in [
        (
            ["prove", "--budget", "1", "f", "cover @LINE(3)", "1", "d.c"].as_slice(),
            "goal 1 undecided\n",
        ),
        (
            &["generate", "--budget", "1", "f", "cover @LINE(3)", "d.c"],
            "goals 1 turns 4 frames 8 answers 16 budget 1\ngoal 1 undecided e2@d.c:3\nsuite\n\
covered 0 refuted 0 undecided 1 of 1\n",
        ),
    ] {
        let mut files = files(alloc, &SOURCES, &[])?;
        let words = words(alloc, texts)?;
        let mut out = VecSink::new(alloc);
        let mut err = VecSink::new(alloc);
        let mut watch = KeepWatch::new(alloc);
        let status = run(alloc, &words, &mut files, &mut out, &mut err, &mut watch);
        assert_eq!(rt; status, Status::DoneOpen);
        assert_eq!(rt; out.taken(), want.as_bytes());
        assert_eq!(rt; watch.list.len(), 1);
        let Some((goal, _formula, history)) = watch.list.get(0) else {
            return Err(Fail::from("nothing was shown"));
        };
        assert_eq!(rt; *goal, 1);
        assert_eq!(rt; history.moves.len(), 1);
    }
    Ok(())
}

// A sink that fails in the middle of a report.
#[test]
fn a_report_is_cut(rt: HostRuntime) -> Result<(), Fail> {
    let alloc = rt.alloc();
    let mut files = files(alloc, &SOURCES, &[])?;
    let words = words(alloc, &["generate", "f", "cover @LINE(3)", "d.c"])?;
    let script = [Take::AtMost(10), Take::Fail];
    let mut out = MemorySink::new(alloc, script.to_vec(alloc)?);
    let mut err = VecSink::new(alloc);
    let status = run(alloc, &words, &mut files, &mut out, &mut err, &mut NoWatch);
    assert_eq!(rt; status, Status::WriteFault);
    assert_eq!(rt; out.taken(), "goals 1 tu".as_bytes());
    assert_eq!(rt; err.taken(), "".as_bytes());
    Ok(())
}
