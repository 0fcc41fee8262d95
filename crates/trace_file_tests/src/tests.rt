//! Trace files with what they give or are refused for, worked by hand.
ghost use Rattle.std.specs.Prelude.{◌≡◌, [], All, IsTrue, length, slice_get};
ghost use Rattle.std.specs.List.{list_all};
ghost use Rattle.std.specs.Option.{IsSomeAnd};
ghost use Rattle.c_meaning.specs.Starts.{CanStart};
ghost use Rattle.c_values.specs.Kind.{is_kind};
ghost use Rattle.trace_file.specs.Written.{HasWords};

use c_values::{Kind, is_kind};
use cfa::{Graph, Predicates};
use containers::Vector;
use fq_core::{Fault, Memory, Place};
use path_runner::{Ends, Input, trace_run};
use std::alloc::{AllocError, Global};
use std::test::Fail;
use test_programs::graph_of;
use trace_file::{Trace, read_trace, texts_are_read, trace_text};

// e0 and e1 are the guards of `x > 10`, e2 and e3 the returns of lines 3 and 5.
const BRANCH: &str = "int f(int x) {\n  if (x > 10) {\n    return 1;\n  }\n  return 0;\n}\n";

// e1 is the assignment of line 3, which traps where i isn't from 0 to 3.
const ELEMENT: &str = "int f(int i) {\n  int a[4];\n  a[i] = 1;\n  return a[0];\n}\n";

const ANSWERS: &str =
    "int in(void);\nint f(int x) {\n  int s = 0;\n  if (x == 1) {\n    s = in();\n  }\n  int t = in();\n  if (s == 5 && t == 9) {\n    return 1;\n  }\n  return 0;\n}\n";

const BYTE: &str =
    "signed char in(void);\nint f(unsigned char x, long y) {\n  return in() + x;\n}\n";

fn no_predicates(alloc: Global) -> Predicates
    ensures { result ≡ record { texts = []; meanings = [] } }
{
    Predicates {
        texts: Vector::new(alloc),
        meanings: Vector::new(alloc),
    }
}

// Whether runs of the first function can be read.
fn can_read(graph: &Graph) -> bool
    ensures { IsTrue result → IsSomeAnd (slice_get graph.now.functions 0) (λ f. f.arrays ≡ []) }
{
    match graph.functions().get(0) {
        None => false,
        Some(function) => function.arrays.is_empty(),
    }
}

fn can_start(graph: &Graph, input: &Input) -> bool
    ensures { IsTrue result → IsSomeAnd (slice_get graph.now.functions 0) (λ f. CanStart f input.now.words) }
{
    match graph.functions().get(0) {
        None => false,
        Some(function) => {
            function.arrays.is_empty() && input.words.len() == function.parameters.len()
        }
    }
}

fn are_of(traces: &[Trace], kinds: &[Kind]) -> bool
    ensures { IsTrue result → All (HasWords kinds.now) traces.now }
{
    traces
        .iter()
        .all(|trace| trace.input.words.len() == kinds.len())
}

fn are_kinds(kinds: &[Kind]) -> bool
    ensures { result ≡ list_all is_kind kinds.now }
{
    kinds.iter().all(|kind| is_kind(*kind))
}

fn read(alloc: Global, graph: &Graph, ends: Ends, bytes: &[u8]) -> Result<Vec<Trace>, Fault> {
    if !can_read(graph) {
        return Err(Fault::Memory);
    }
    let none = no_predicates(alloc);
    read_trace(alloc, graph, 0, &none, ends, bytes)
}

fn write(alloc: Global, traces: &[Trace], kinds: &[Kind]) -> Result<Vec<u8>, Memory> {
    if !are_of(traces, kinds) || !are_kinds(kinds) {
        return Err(Memory);
    }
    trace_text(alloc, traces, kinds)
}

fn push_words(text: &mut String, words: &[u64]) -> Result<(), AllocError> {
    for word in words {
        write!(text, "{word} ")?;
    }
    Ok(())
}

fn push_edges(text: &mut String, edges: &[u32]) -> Result<(), AllocError> {
    for edge in edges {
        write!(text, " {edge}")?;
    }
    Ok(())
}

// Traces as `ARGUMENTS / ANSWERS : EDGES;`, or a refusal as its code and its place.
fn push_traces(text: &mut String, traces: &[Trace]) -> Result<(), AllocError> {
    for trace in traces {
        push_words(text, &trace.input.words)?;
        text.push('/')?;
        push_words(text, &trace.input.answers)?;
        text.push(':')?;
        push_edges(text, &trace.run.edges)?;
        text.push(';')?;
    }
    Ok(())
}

fn push_place(text: &mut String, place: &Place) -> Result<(), AllocError> {
    match place {
        Place::Line { number } => write!(text, "line {number}"),
        Place::Limit { number } => write!(text, "limit {number}"),
        _ => write!(text, "elsewhere"),
    }
}

fn push_fault(text: &mut String, fault: &Fault) -> Result<(), AllocError> {
    match fault {
        Fault::Refused(refusal) => {
            let code = refusal.code;
            write!(text, "{code} ")?;
            push_place(text, &refusal.place)
        }
        Fault::Memory => write!(text, "memory"),
    }
}

fn reading(alloc: Global, graph: &Graph, ends: Ends, bytes: &[u8]) -> Result<String, Fail> {
    let mut text = String::new(alloc);
    match read(alloc, graph, ends, bytes) {
        Ok(traces) => push_traces(&mut text, &traces)?,
        Err(fault) => push_fault(&mut text, &fault)?,
    }
    Ok(text)
}

fn graph(alloc: Global, source: &str) -> Result<Graph, Fail> {
    match graph_of(alloc, b"a.c", source) {
        Ok(graph) => Ok(graph),
        Err(_) => Err(Fail::from("no graph")),
    }
}

// A file with these lines after the title.
fn file(alloc: Global, lines: &str) -> Result<String, AllocError> {
    format!(in alloc; "fshell traces 1\n{lines}")
}

#[test]
fn files(rt: HostRuntime) -> Result<(), Fail> {
    let alloc = rt.alloc();
    let graph = graph(alloc, BRANCH)?;
    for (lines, given) in [
        ("", ""),
        (
            "args 5 edges 1 3\nargs 11 edges 0 2\n",
            "5 /: 1 3;11 /: 0 2;",
        ),
        ("args -1 edges 1 3\n", "18446744073709551615 /: 1 3;"),
        (
            "args 18446744073709551615 edges 1 3\n",
            "18446744073709551615 /: 1 3;",
        ),
        // Its lowest 32 bits are 0.
        (
            "args -9223372036854775808 edges 1 3\n",
            "9223372036854775808 /: 1 3;",
        ),
        (
            "args 0 answers 7 -1 edges 1 3\n",
            "0 /7 18446744073709551615 : 1 3;",
        ),
        ("args 5 edges 0 2\n", "56 line 2"),
        ("args 5 edges 1\n", "56 line 2"),
        ("args 5 edges\n", "56 line 2"),
        ("args 5 edges 1 3 3\n", "56 line 2"),
        ("args 5 edges 1 4294967295\n", "56 line 2"),
        (
            "args 5 edges 1 3\nargs 5 edges 1\nargs 5 edges 0\n",
            "56 line 3",
        ),
        ("args 5 edges 1\nargs 5 edges 01\n", "55 line 3"),
        ("args 5 edges 1 4294967296\n", "55 line 2"),
        ("args 5 edges 1 -3\n", "55 line 2"),
        ("args 5 edges 1 03\n", "55 line 2"),
        ("args 05 edges 1 3\n", "55 line 2"),
        ("args -0 edges 1 3\n", "55 line 2"),
        ("args -05 edges 1 3\n", "55 line 2"),
        ("args +5 edges 1 3\n", "55 line 2"),
        ("args 18446744073709551616 edges 1 3\n", "55 line 2"),
        ("args -9223372036854775809 edges 1 3\n", "55 line 2"),
        (
            "args 123456789012345678901234567890 edges 1 3\n",
            "55 line 2",
        ),
        ("args edges 1 3\n", "55 line 2"),
        ("args 5 6 edges 1 3\n", "55 line 2"),
        ("args 5 answers edges 1 3\n", "55 line 2"),
        ("args 5 1 3\n", "55 line 2"),
        ("arg 5 edges 1 3\n", "55 line 2"),
        ("args  5 edges 1 3\n", "55 line 2"),
        (" args 5 edges 1 3\n", "55 line 2"),
        ("args 5 edges 1 3 \n", "55 line 2"),
        ("args 5\tedges 1 3\n", "55 line 2"),
        ("args 5 edges 1 3\r\n", "55 line 2"),
        ("args 5 edges 1 3", "55 line 2"),
        ("args 5 edges 1 3\nargs 11 edges 0 2", "55 line 3"),
        ("\n", "55 line 2"),
        ("args 5 edges 1 3\n\n", "55 line 3"),
    ] {
        let bytes = file(alloc, lines)?;
        let text = reading(alloc, &graph, Ends::Returned, bytes.as_bytes())?;
        assert_eq!(rt; text.as_str(), given, "{lines}");
    }
    for bytes in [
        "",
        "\n",
        "fshell traces 1",
        "args 5 edges 1 3\n",
        "fshell traces 10\n",
    ] {
        let text = reading(alloc, &graph, Ends::Returned, bytes.as_bytes())?;
        assert_eq!(rt; text.as_str(), "55 line 1", "{bytes}");
    }
    Ok(())
}

// A run that a trap ends is counted with traps.
#[test]
fn trapped(rt: HostRuntime) -> Result<(), Fail> {
    let alloc = rt.alloc();
    let graph = graph(alloc, ELEMENT)?;
    for (ends, given) in [
        (Ends::Returned, "56 line 2"),
        (Ends::Trapped, "4 /: 0;"),
        (Ends::Any, "4 /: 0;"),
    ] {
        let text = reading(alloc, &graph, ends, b"fshell traces 1\nargs 4 edges 0\n")?;
        assert_eq!(rt; text.as_str(), given);
    }
    Ok(())
}

// Many lines: of more than 10,000 traces the form is tested all the same, and no run.
#[test]
fn many(rt: HostRuntime) -> Result<(), Fail> {
    let alloc = rt.alloc();
    let graph = graph(alloc, BRANCH)?;
    let mut bytes = Vec::from_slice(alloc, b"fshell traces 1\nargs 5 edges 1 3\n")?;
    for _ in 1..10_000 {
        bytes.extend_from_slice(b"args 5 edges 1 3\n")?;
    }
    match read(alloc, &graph, Ends::Returned, &bytes) {
        Ok(traces) => assert_eq!(rt; traces.len(), 10_000),
        Err(_) => return Err(Fail::from("refused")),
    }
    bytes.extend_from_slice(b"args 5 edges\n")?;
    let text = reading(alloc, &graph, Ends::Returned, &bytes)?;
    assert_eq!(rt; text.as_str(), "53 limit 10000");
    bytes.extend_from_slice(b"args\n")?;
    let text = reading(alloc, &graph, Ends::Returned, &bytes)?;
    assert_eq!(rt; text.as_str(), "55 line 10003");
    Ok(())
}

// A line of 16 MiB.
#[test]
fn long_line(rt: HostRuntime) -> Result<(), Fail> {
    let alloc = rt.alloc();
    let graph = graph(alloc, BRANCH)?;
    let mut bytes = Vec::from_slice(alloc, b"fshell traces 1\nargs ")?;
    let digits = vec![in alloc; b'1'; 1 << 24]?;
    bytes.extend_from_slice(&digits)?;
    bytes.extend_from_slice(b" edges 1 3\n")?;
    let text = reading(alloc, &graph, Ends::Returned, &bytes)?;
    assert_eq!(rt; text.as_str(), "55 line 2");
    Ok(())
}

fn input_of(alloc: Global, words: &[u64], answers: &[u64]) -> Result<Input, AllocError> {
    Ok(Input {
        words: Vector::from_vec(Vec::from_slice(alloc, words)?),
        answers: Vector::from_vec(Vec::from_slice(alloc, answers)?),
    })
}

fn trace_of(alloc: Global, graph: &Graph, words: &[u64], answers: &[u64]) -> Result<Trace, Fail> {
    let input = input_of(alloc, words, answers)?;
    if !can_start(graph, &input) {
        return Err(Fail::from("no start"));
    }
    let none = no_predicates(alloc);
    match trace_run(alloc, graph, 0, &input, &none, 1000) {
        Ok(run) => Ok(Trace { input, run }),
        Err(_) => Err(Fail::from("no memory")),
    }
}

// What is written is read again, and written the same.
fn again(
    alloc: Global,
    graph: &Graph,
    kinds: &[Kind],
    trace: Trace,
) -> Result<(Vec<u8>, Vec<u8>), Fail> {
    let Ok(text) = write(alloc, &[trace], kinds) else {
        return Err(Fail::from("not written"));
    };
    let Ok(traces) = read(alloc, graph, Ends::Returned, &text) else {
        return Err(Fail::from("not read"));
    };
    let Ok(more) = write(alloc, &traces, kinds) else {
        return Err(Fail::from("not written again"));
    };
    Ok((text, more))
}

// The arguments are those of the parameters' kinds, and the answers those that the run took.
#[test]
fn written(rt: HostRuntime) -> Result<(), Fail> {
    let alloc = rt.alloc();
    texts_are_read();
    let int: &[Kind] = &[Kind::INT];
    let both: &[Kind] = &[Kind::UNSIGNED_CHAR, Kind::LONG];
    let none: &[u64] = &[];
    for (source, kinds, words, answers, begins) in [
        (BRANCH, int, [5, 0], none, "args 5 edges 1 3\n"),
        (BRANCH, int, [4_294_967_295, 0], none, "args -1 edges 1 3\n"),
        (
            ANSWERS,
            int,
            [1, 0],
            &[5, 9, 7],
            "args 1 answers 5 9 edges ",
        ),
        (ANSWERS, int, [2, 0], &[5], "args 2 answers 5 edges "),
        (
            BYTE,
            both,
            [300, u64::MAX],
            &[255],
            "args 44 -1 answers -1 edges ",
        ),
    ] {
        let graph = graph(alloc, source)?;
        let trace = trace_of(alloc, &graph, &words[..kinds.len().min(2)], answers)?;
        let (text, more) = again(alloc, &graph, kinds, trace)?;
        let wanted = file(alloc, begins)?;
        assert!(rt; text.starts_with(wanted.as_bytes()), "{begins}");
        assert_eq!(rt; text.as_slice(), more.as_slice(), "{begins}");
    }
    Ok(())
}
