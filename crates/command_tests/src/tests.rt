use command::*;
use fq_core::Name;
use fq_io::{MemoryFiles, MemorySink, Take, VecSink};
use search::NoWatch;
use std::alloc::Global;
use std::process::Abort;
use std::test::Fail;

pub const A_C: &str = "int f(int x) {\n  if (x > 10) {\n    return 1;\n  }\n  return 0;\n}\n";

pub const QUERY: &str = "cover EDGES(ID)";

pub fn words(alloc: Global, texts: &[&str]) -> Result<Vec<String>, Fail> {
    let mut words = Vec::new(alloc);
    for text in texts {
        words.push(String::from_str(alloc, text)?)?;
    }
    Ok(words)
}

pub fn files(
    alloc: Global,
    entries: &[(&str, &str)],
    failing: &[u32],
) -> Result<MemoryFiles, Fail> {
    let mut held = Vec::new(alloc);
    for (name, content) in entries {
        let Ok(name) = Name::new(alloc, name.as_bytes()) else {
            return Err(Fail::from("no memory"));
        };
        held.push((name, content.as_bytes().to_vec(alloc)?))?;
    }
    Ok(MemoryFiles::new(held, failing.to_vec(alloc)?))
}

// Runs on words, with these files in memory, and compares the status and both texts.
pub fn compare(
    rt: &impl Abort,
    alloc: Global,
    texts: &[&str],
    entries: &[(&str, &str)],
    want: (Status, &str, &str),
) -> Result<(), Fail> {
    let mut files = files(alloc, entries, &[])?;
    let words = words(alloc, texts)?;
    let mut out = VecSink::new(alloc);
    let mut err = VecSink::new(alloc);
    let status = run(alloc, &words, &mut files, &mut out, &mut err, &mut NoWatch);
    assert_eq!(rt; status, want.0);
    assert_eq!(rt; out.taken(), want.1.as_bytes());
    assert_eq!(rt; err.taken(), want.2.as_bytes());
    Ok(())
}

// Measures the function f of a source.
fn compare_source(
    rt: &impl Abort,
    alloc: Global,
    source: &str,
    inputs: &str,
    want: (Status, &str, &str),
) -> Result<(), Fail> {
    compare(
        rt,
        alloc,
        &["measure", "f", QUERY, "in.txt", "a.c"],
        &[("a.c", source), ("in.txt", inputs)],
        want,
    )
}

pub const TWO_INPUTS: &str = "goals 4 inputs 2\ninput 1 returned 0\ninput 2 returned 1\n\
goal 1 covered 2 e0@a.c:2\ngoal 2 covered 1 e1@a.c:2\ngoal 3 covered 2 e2@a.c:3\ngoal 4 covered 1 e3@a.c:5\n\
suite 1 2\ncovered 4 of 4\n";

const NO_INPUTS: &str = "goals 4 inputs 0\ngoal 1 missed e0@a.c:2\ngoal 2 missed e1@a.c:2\n\
goal 3 missed e2@a.c:3\ngoal 4 missed e3@a.c:5\nsuite\ncovered 0 of 4\n";

#[test]
fn reports_of_inputs(rt: HostRuntime) -> Result<(), Fail> {
    for (inputs, want) in [
        ("5\n11\n", TWO_INPUTS),
        (" \t5 \r\n\n\t\r\n11", TWO_INPUTS),
        ("", NO_INPUTS),
        (" \n\r\n\t\n", NO_INPUTS),
    ] {
        compare_source(&rt, rt.alloc(), A_C, inputs, (Status::Done, want, ""))?;
    }
    Ok(())
}

// Each way in which a run ends: it is told, and only a run that returned covers.
#[test]
fn ends_of_runs(rt: HostRuntime) -> Result<(), Fail> {
    let alloc = rt.alloc();
    for (source, inputs, end, covered) in [
        (
            "int f(int a, int b) { return a + b; }",
            "2147483647 1",
            "returned -2147483648",
            true,
        ),
        (
            "unsigned f(int a) { return a; }",
            "-1",
            "returned 4294967295",
            true,
        ),
        ("void f(int a) { a = a; }", "1", "returned", true),
        (
            "int f(int a) { return 1 / a; }",
            "0",
            "trapped zero-divisor",
            false,
        ),
        (
            "int f(int a) { return a / -1; }",
            "-2147483648",
            "trapped overflow-divisor",
            false,
        ),
        (
            "int f(int a) { int b[2]; return b[a]; }",
            "2",
            "trapped index",
            false,
        ),
        (
            "int f(int a) { return 1 << a; }",
            "32",
            "trapped shift",
            false,
        ),
        (
            "int f(int a) { assert(a > 0); return a; }",
            "0",
            "trapped assert",
            false,
        ),
        (
            "int f(int a) { assume(a > 0); return a; }",
            "0",
            "blocked",
            false,
        ),
        ("int f(int a) { return f(a); }", "0", "too-deep", false),
        (
            "int f(int a) { while (1) { a = 1; } return a; }",
            "0",
            "cut",
            false,
        ),
    ] {
        let entries = [("a.c", source), ("in.txt", inputs)];
        let mut files = files(alloc, &entries, &[])?;
        let words = words(alloc, &["measure", "f", QUERY, "in.txt", "a.c"])?;
        let mut out = VecSink::new(alloc);
        let mut err = VecSink::new(alloc);
        let status = run(alloc, &words, &mut files, &mut out, &mut err, &mut NoWatch);
        assert_eq!(rt; status, Status::Done, "{source}");
        let text = str::from_utf8(out.taken())?;
        let line = format!(in alloc; "\ninput 1 {end}\n")?;
        assert!(rt; text.contains(line.as_str()), "{source}: {text}");
        assert_eq!(rt; text.contains("\nsuite 1\n"), covered, "{source}: {text}");
        assert_eq!(rt;
            text.contains("\ncovered 0 of "),
            !covered,
            "{source}: {text}"
        );
    }
    Ok(())
}

// What is refused of a source and of the entry.
#[test]
fn refusals(rt: HostRuntime) -> Result<(), Fail> {
    for (source, status, line) in [
        (
            "int f(void) { return @; }",
            Status::SourceRefused,
            "error 10 UnknownByte a.c:1\n",
        ),
        (
            "\n/* ",
            Status::SourceRefused,
            "error 11 OpenComment a.c:2\n",
        ),
        (
            "#if 1\n",
            Status::SourceRefused,
            "error 12 Directive a.c:1\n",
        ),
        (
            "long x = 9223372036854775808;",
            Status::SourceRefused,
            "error 13 LiteralTooWide a.c:1\n",
        ),
        (
            "#define A A\nint f(void) { return A; }",
            Status::SourceRefused,
            "error 14 MacroLoop a.c:2\n",
        ),
        (
            "int f(void) { return 1 }",
            Status::SourceRefused,
            "error 20 Syntax a.c:1\n",
        ),
        (
            "int f(float x) { return 1; }",
            Status::SourceRefused,
            "error 21 OutOfProfile a.c:1\n",
        ),
        (
            "int f(void) { break; }",
            Status::SourceRefused,
            "error 29 Misplaced a.c:1\n",
        ),
        (
            "int f(void) { return y; }",
            Status::SourceRefused,
            "error 30 Unknown a.c:1\n",
        ),
        (
            "int f(int x, int x) { return x; }",
            Status::SourceRefused,
            "error 31 Twice a.c:1\n",
        ),
        (
            "int f(int x) { return f(); }",
            Status::SourceRefused,
            "error 32 Arity a.c:1\n",
        ),
        (
            "void g(void) {}\nint f(void) { return g(); }",
            Status::SourceRefused,
            "error 33 NotInteger a.c:2\n",
        ),
        (
            "int a[1025];",
            Status::Limit,
            "error 34 ArrayLength limit 1024\n",
        ),
        (
            "int f(int a[3]) { return a[0]; }\nint g(int a[2]) { return f(a); }",
            Status::SourceRefused,
            "error 35 ArrayArgument a.c:2\n",
        ),
        (
            "int g(void) { return 1; }",
            Status::SourceRefused,
            "error 36 NoSuchEntry\n",
        ),
        (
            "int f(int a[2]) { return a[0]; }",
            Status::SourceRefused,
            "error 36 NoSuchEntry\n",
        ),
        (
            "int f(int x) { switch (x) { case x: ; } return 1; }",
            Status::SourceRefused,
            "error 38 ConstantNeeded a.c:1\n",
        ),
        (
            "void g(void); int f(void) { g(); return 1; }",
            Status::SourceRefused,
            "error 39 InputForm a.c:1\n",
        ),
    ] {
        compare_source(&rt, rt.alloc(), source, "1\n", (status, "", line))?;
    }
    Ok(())
}

// What is refused of the inputs and of the query, each before what comes after it.
#[test]
fn refusals_of_inputs_and_queries(rt: HostRuntime) -> Result<(), Fail> {
    let alloc = rt.alloc();
    for (inputs, status, line) in [
        ("[1", Status::InputRefused, "error 50 NotJson input 0\n"),
        ("1\n1 2\n", Status::InputRefused, "error 51 Shape input 2\n"),
        (
            "18446744073709551616\n",
            Status::InputRefused,
            "error 52 Range input 1\n",
        ),
    ] {
        compare_source(&rt, alloc, A_C, inputs, (status, "", line))?;
    }
    for (query, status, line) in [
        (
            "cover ?",
            Status::QueryRefused,
            "error 60 Lexical query:7\n",
        ),
        (
            "cover",
            Status::QueryRefused,
            "error 61 QuerySyntax query\n",
        ),
        (
            "cover ID*",
            Status::QueryRefused,
            "error 62 StarOutsideQuotes query:9\n",
        ),
        (
            "cover PATHS(ID,0)",
            Status::QueryRefused,
            "error 64 BadNumber query:16\n",
        ),
        (
            "cover {x +}",
            Status::QueryRefused,
            "error 65 PredicateSyntax query\n",
        ),
        (
            "cover {y == 1} + @FUNC(g)",
            Status::QueryRefused,
            "error 66 PredicateNowhere query\n",
        ),
        (
            "cover @FUNC(g)",
            Status::QueryRefused,
            "error 70 NoSuchName query:7\n",
        ),
        (
            "cover SETMINUS(ID,ID)",
            Status::QueryRefused,
            "error 72 NoGoals query\n",
        ),
    ] {
        let words = ["measure", "f", query, "no.txt", "a.c"];
        compare(&rt, alloc, &words, &[("a.c", A_C)], (status, "", line))?;
    }
    Ok(())
}

// A source of 4 MiB is within its limit, and one byte more isn't; nor are 10,001 inputs.
#[test]
fn limits(rt: HostRuntime) -> Result<(), Fail> {
    let alloc = rt.alloc();
    let mut source = String::from_str(alloc, A_C)?;
    let blanks = vec![in alloc; b' '; 4_194_304 - A_C.len()]?;
    source.push_str(str::from_utf8(&blanks)?)?;
    let done = (Status::Done, TWO_INPUTS, "");
    compare_source(&rt, alloc, source.as_str(), "5\n11\n", done)?;
    source.push_str("\n")?;
    let long = (Status::Limit, "", "error 16 FileTooLong a.c\n");
    compare_source(&rt, alloc, source.as_str(), "5\n11\n", long)?;
    let mut inputs = String::new(alloc);
    for _ in 0..10_001 {
        inputs.push_str("1\n")?;
    }
    let many = (Status::Limit, "", "error 53 TooManyInputs limit 10000\n");
    compare_source(&rt, alloc, A_C, inputs.as_str(), many)?;
    Ok(())
}

const P1_C: &str = "int g(int v) { return v; }\n";

const P2_C: &str =
    "int f(int x) {\n  int y = 0;\n  if (x > 3) {\n    y = g(x);\n  }\n  return y;\n}\n";

const P_REPORT: &str = "goals 8 inputs 2\ninput 1 returned 9\ninput 2 returned 0\n\
goal 1 covered 1 e0@p1.c:1\ngoal 2 covered 1 e1@p2.c:2\ngoal 3 covered 1 e2@p2.c:3\ngoal 4 covered 2 e3@p2.c:3\n\
goal 5 covered 1 e4@p2.c:4\ngoal 6 covered 1 e5@p2.c:4\ngoal 7 covered 1 e6@p2.c:4\ngoal 8 covered 1 e7@p2.c:6\n\
suite 1 2\ncovered 8 of 8\n";

// Sources are one unit in the order of the words, each read once for each word that names it.
#[test]
fn several_sources(rt: HostRuntime) -> Result<(), Fail> {
    let alloc = rt.alloc();
    let entries = [("p1.c", P1_C), ("p2.c", P2_C), ("in.txt", "9\n2\n")];
    for (sources, want) in [
        (["p1.c", "p2.c"], (Status::Done, P_REPORT, "")),
        (
            ["p2.c", "p1.c"],
            (Status::SourceRefused, "", "error 30 Unknown p2.c:4\n"),
        ),
        (
            ["p1.c", "p1.c"],
            (Status::SourceRefused, "", "error 31 Twice p1.c:1\n"),
        ),
        (
            ["p1.c", "no.c"],
            (Status::ReadFault, "", "error 7 ReadFault no.c\n"),
        ),
    ] {
        let words = ["measure", "f", QUERY, "in.txt", sources[0], sources[1]];
        compare(&rt, alloc, &words, &entries, want)?;
    }
    Ok(())
}

// The lists of goals and of runs, a passing clause, and the report as JSON.
#[test]
fn other_commands(rt: HostRuntime) -> Result<(), Fail> {
    let alloc = rt.alloc();
    let entries = [("p1.c", P1_C), ("p2.c", P2_C), ("in.txt", "9\n2\n")];
    for (words, out) in [
        (
            ["goals", "cover @CALL(g) -> @EXIT(f)", "p1.c", "p2.c"].as_slice(),
            "goals 1\ngoal 1 e4@p2.c:4 . \"ID*\" . e7@p2.c:6\n",
        ),
        (
            &["runs", "f", "in.txt", "p1.c", "p2.c"],
            "input 1 returned 9 edges 1 2 4 0 5 6 7\ninput 2 returned 0 edges 1 3 7\n",
        ),
        (
            &["runs", "--steps", "3", "f", "in.txt", "p1.c", "p2.c"],
            "input 1 cut edges 1 2 4\ninput 2 returned 0 edges 1 3 7\n",
        ),
        (
            &[
                "measure",
                "f",
                "cover {y == 9} passing ^NOT(@CALL(g))*$",
                "in.txt",
                "p1.c",
                "p2.c",
            ],
            "goals 1 inputs 2\ninput 1 returned 9\ninput 2 returned 0\ngoal 1 missed {y == 9}\nsuite\ncovered 0 of 1\n",
        ),
        (
            &[
                "measure",
                "f",
                "cover @CALL(g)",
                "in.txt",
                "p1.c",
                "p2.c",
                "--json",
            ],
            "{\"covered\":1,\"goals\":[{\"answer\":\"covered\",\"input\":1,\"text\":\"e4@p2.c:4\"}],\"inputs\":[{\"end\":\"returned\",\"value\":9},{\"end\":\"returned\",\"value\":0}],\"suite\":[1]}\n",
        ),
    ] {
        compare(&rt, alloc, words, &entries, (Status::Done, out, ""))?;
    }
    Ok(())
}

// Words that ask for nothing.
#[test]
fn words_without_an_answer(rt: HostRuntime) -> Result<(), Fail> {
    let alloc = rt.alloc();
    let usage = (Status::Usage, "", "error 2 Usage\n");
    for words in [
        ["measure", "f"].as_slice(),
        &[],
        &["Measure", "f", QUERY, "in.txt", "a.c"],
        &["measure", "f", QUERY, "in.txt", "a.c", "-b.c"],
        &["measure", "f", QUERY, "in.txt", "-"],
        &["goals", QUERY, "a.c", "--steps", "1"],
        &["generate", "f", QUERY, "a.c", "--frames", "0"],
        &["check", "f", QUERY, "0", "a.cert", "a.c"],
        &["sample", "201"],
    ] {
        compare(&rt, alloc, words, &[("a.c", A_C)], usage)?;
    }
    Ok(())
}

// The sources are read first, and then the inputs; each read fails in turn.
#[test]
fn a_read_fails(rt: HostRuntime) -> Result<(), Fail> {
    let alloc = rt.alloc();
    let entries = [("p1.c", P1_C), ("p2.c", P2_C), ("in.txt", "9\n2\n")];
    for (failing, want) in [
        (0, "error 7 ReadFault p1.c\n"),
        (1, "error 7 ReadFault p2.c\n"),
        (2, "error 7 ReadFault in.txt\n"),
    ] {
        let mut files = files(alloc, &entries, &[failing])?;
        let words = words(alloc, &["measure", "f", QUERY, "in.txt", "p1.c", "p2.c"])?;
        let mut out = VecSink::new(alloc);
        let mut err = VecSink::new(alloc);
        let status = run(alloc, &words, &mut files, &mut out, &mut err, &mut NoWatch);
        assert_eq!(rt; status, Status::ReadFault);
        assert_eq!(rt; out.taken(), "".as_bytes());
        assert_eq!(rt; err.taken(), want.as_bytes());
    }
    Ok(())
}

#[test]
fn a_write_fails_in_mid_stream(rt: HostRuntime) -> Result<(), Fail> {
    let alloc = rt.alloc();
    let script = [Take::AtMost(10), Take::Fail];
    for (query, out_text, err_text) in [(QUERY, "goals 4 in", ""), ("cover", "", "error 61 Q")] {
        let mut files = files(alloc, &[("a.c", A_C), ("in.txt", "5\n11\n")], &[])?;
        let words = words(alloc, &["measure", "f", query, "in.txt", "a.c"])?;
        let mut out = MemorySink::new(alloc, script.to_vec(alloc)?);
        let mut err = MemorySink::new(alloc, script.to_vec(alloc)?);
        let status = run(alloc, &words, &mut files, &mut out, &mut err, &mut NoWatch);
        assert_eq!(rt; status, Status::WriteFault);
        assert_eq!(rt; out.taken(), out_text.as_bytes());
        assert_eq!(rt; err.taken(), err_text.as_bytes());
    }
    Ok(())
}

// An input that hits what an earlier one hits is dropped: the inputs are tried from the last to the first.
#[test]
fn a_reduced_suite(rt: HostRuntime) -> Result<(), Fail> {
    let want =
        "goals 4 inputs 4\ninput 1 returned 0\ninput 2 returned 0\ninput 3 returned 1\ninput 4 returned 1\n\
goal 1 covered 3 e0@a.c:2\ngoal 2 covered 1 e1@a.c:2\ngoal 3 covered 3 e2@a.c:3\ngoal 4 covered 1 e3@a.c:5\n\
suite 1 3\ncovered 4 of 4\n";
    compare_source(
        &rt,
        rt.alloc(),
        A_C,
        "5\n6\n11\n12\n",
        (Status::Done, want, ""),
    )
}

// What a measurement of two sources with this query answers, where the files and the words could be made.
fn answer_of(
    rt: &HostRuntime,
    query: &str,
    out: &mut VecSink,
    err: &mut VecSink,
) -> Result<Status, Fail> {
    let alloc = rt.alloc();
    let entries = [("p1.c", P1_C), ("p2.c", P2_C), ("in.txt", "9\n2\n")];
    let mut files = files(alloc, &entries, &[])?;
    let words = words(alloc, &["measure", "f", query, "in.txt", "p1.c", "p2.c"])?;
    let status = run(alloc, &words, &mut files, out, err, &mut NoWatch);
    eprintln!(rt; "answer {status:?}")?;
    Ok(status)
}

// Whatever allocation is refused: the answer is the one without the refusal, or Memory with nothing on `err` and a first
// part of the text on `out`. It is run with each allocation refused in turn, where the files and words of the test itself
// may want memory too.
#[test]
fn memory_refused(rt: HostRuntime) -> Result<(), Fail> {
    let mut out = VecSink::new(rt.alloc());
    let mut err = VecSink::new(rt.alloc());
    let status = answer_of(&rt, QUERY, &mut out, &mut err)?;
    if status == Status::Memory {
        assert!(rt; P_REPORT.as_bytes().starts_with(out.taken()));
    } else {
        assert_eq!(rt; status, Status::Done);
        assert_eq!(rt; out.taken(), P_REPORT.as_bytes());
    }
    assert_eq!(rt; err.taken(), "".as_bytes());
    Ok(())
}

// The same of a refusal, whose line goes to `err`.
#[test]
fn memory_refused_to_a_refusal(rt: HostRuntime) -> Result<(), Fail> {
    let mut out = VecSink::new(rt.alloc());
    let mut err = VecSink::new(rt.alloc());
    let line = "error 61 QuerySyntax query\n";
    let status = answer_of(&rt, "cover", &mut out, &mut err)?;
    if status == Status::Memory {
        assert!(rt; line.as_bytes().starts_with(err.taken()));
    } else {
        assert_eq!(rt; status, Status::QueryRefused);
        assert_eq!(rt; err.taken(), line.as_bytes());
    }
    assert_eq!(rt; out.taken(), "".as_bytes());
    Ok(())
}
