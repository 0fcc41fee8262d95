// The words of command lines, and what they ask for.
use c_meaning::Ends;
use command_words::{Bounds, Refused, Request, request};
use std::alloc::Global;
use std::test::Fail;

// The words of a line, parted by spaces; `_` stands for the empty word.
fn words(alloc: Global, line: &str) -> Result<Vec<String>, Fail> {
    let mut words = Vec::new(alloc);
    for part in line.split(' ') {
        let word = if part == "_" { "" } else { part };
        words.push(String::from_str(alloc, word)?)?;
    }
    Ok(words)
}

fn show_bounds(alloc: Global, bounds: Bounds) -> Result<String, Fail> {
    let Bounds {
        turns,
        frames,
        answers,
    } = bounds;
    Ok(format!(in alloc; "{turns}/{frames}/{answers}")?)
}

fn show_ends(ends: Ends) -> &'static str {
    match ends {
        Ends::Returned => "returned",
        Ends::Trapped => "trapped",
        Ends::Any => "any",
    }
}

// A request, with the name of its command.
fn show(alloc: Global, request: &Request) -> Result<String, Fail> {
    let text = match request {
        Request::Measure(m) => {
            format!(in alloc;
                "measure {} {} {} {:?} {} {} {}",
                m.entry,
                m.query,
                m.inputs,
                m.sources,
                m.steps,
                show_ends(m.ends),
                m.json
            )?
        }
        Request::Generate(m) => {
            let bounds = show_bounds(alloc, m.bounds)?;
            format!(in alloc;
                "generate {} {} {:?} {bounds} {} {} {}",
                m.entry,
                m.query,
                m.sources,
                show_ends(m.ends),
                m.budget,
                m.json
            )?
        }
        Request::Goals(m) => format!(in alloc; "goals {} {:?}", m.query, m.sources)?,
        Request::Runs(m) => {
            format!(in alloc; "runs {} {} {:?} {}", m.entry, m.inputs, m.sources, m.steps)?
        }
        Request::Prove(m) => {
            let bounds = show_bounds(alloc, m.bounds)?;
            format!(in alloc;
                "prove {} {} {} {:?} {bounds} {} {}",
                m.entry,
                m.query,
                m.goal,
                m.sources,
                show_ends(m.ends),
                m.budget
            )?
        }
        Request::Check(m) => {
            let bounds = show_bounds(alloc, m.bounds)?;
            format!(in alloc;
                "check {} {} {} {} {:?} {bounds} {}",
                m.entry,
                m.query,
                m.goal,
                m.certificate,
                m.sources,
                show_ends(m.ends)
            )?
        }
        Request::Bounds(m) => {
            let bounds = show_bounds(alloc, m.bounds)?;
            format!(in alloc; "bounds {} {:?} {bounds} {}", m.entry, m.sources, m.budget)?
        }
        Request::ProveBounds(m) => {
            let bounds = show_bounds(alloc, m.bounds)?;
            format!(in alloc;
                "prove-bounds {} {:?} {bounds} {}",
                m.entry, m.sources, m.budget
            )?
        }
        Request::CheckBounds(m) => {
            let bounds = show_bounds(alloc, m.bounds)?;
            format!(in alloc;
                "check-bounds {} {} {:?} {bounds}",
                m.entry, m.certificate, m.sources
            )?
        }
        Request::Least(m) => {
            let bounds = show_bounds(alloc, m.bounds)?;
            format!(in alloc;
                "least {} {} {} {:?} {bounds} {} {}",
                m.entry,
                m.query,
                m.goal,
                m.sources,
                show_ends(m.ends),
                m.budget
            )?
        }
        Request::Traces(m) => {
            format!(in alloc;
                "traces {} {} {:?} {} {}",
                m.entry,
                m.inputs,
                m.sources,
                m.steps,
                show_ends(m.ends)
            )?
        }
        Request::Replay(m) => {
            format!(in alloc;
                "replay {} {} {} {:?} {} {}",
                m.entry,
                m.query,
                m.traces,
                m.sources,
                show_ends(m.ends),
                m.json
            )?
        }
        Request::Trees(m) => {
            format!(in alloc;
                "trees {} {} {:?} {}",
                m.entry, m.inputs, m.sources, m.steps
            )?
        }
        Request::Events(m) => {
            format!(in alloc;
                "events {} {} {:?} {}",
                m.entry, m.inputs, m.sources, m.steps
            )?
        }
        Request::Graph(sources) => format!(in alloc; "graph {:?}", sources)?,
        Request::Sample(size) => format!(in alloc; "sample {size}")?,
    };
    Ok(text)
}

fn answer(alloc: Global, line: &str) -> Result<String, Fail> {
    let words = words(alloc, line)?;
    match request(alloc, &words) {
        Ok(asked) => show(alloc, &asked),
        Err(Refused::Usage) => Ok(String::from_str(alloc, "usage")?),
        Err(Refused::Memory) => Err(Fail::from("no memory")),
    }
}

// What lines ask for.
static ASKED: [(&str, &str); 46] = [
    (
        "measure f q in a.c",
        "measure f q in [\"a.c\"] 100000 returned false",
    ),
    (
        "measure f q in a.c b.c --steps 7 --json",
        "measure f q in [\"a.c\", \"b.c\"] 7 returned true",
    ),
    (
        "measure --json f q --steps=1000000 in a.c",
        "measure f q in [\"a.c\"] 1000000 returned true",
    ),
    (
        "measure --steps 0000000001 f q in a.c",
        "measure f q in [\"a.c\"] 1 returned false",
    ),
    ("measure _ _ _ _", "measure    [\"\"] 100000 returned false"),
    (
        "measure f q in -- -a.c -- --json",
        "measure f q in [\"-a.c\", \"--\", \"--json\"] 100000 returned false",
    ),
    (
        "measure f q in a.c --json b.c",
        "measure f q in [\"a.c\", \"b.c\"] 100000 returned true",
    ),
    (
        "generate f q a.c",
        "generate f q [\"a.c\"] 4/8/16 returned 5000000 false",
    ),
    (
        "generate --turns 0 --frames 64 --answers 256 --budget 20000000 --json f q a.c",
        "generate f q [\"a.c\"] 0/64/256 returned 20000000 true",
    ),
    (
        "generate --turns=1000 --frames=1 --answers=0 --budget=1 f q a.c",
        "generate f q [\"a.c\"] 1000/1/0 returned 1 false",
    ),
    ("goals q a.c b.c", "goals q [\"a.c\", \"b.c\"]"),
    ("goals -- -q --", "goals -q [\"--\"]"),
    ("runs f in a.c", "runs f in [\"a.c\"] 100000"),
    ("runs --steps 3 f in a.c", "runs f in [\"a.c\"] 3"),
    (
        "prove f q 10000 a.c",
        "prove f q 10000 [\"a.c\"] 4/8/16 returned 5000000",
    ),
    (
        "prove f q 3 --turns 5 a.c --budget 6",
        "prove f q 3 [\"a.c\"] 5/8/16 returned 6",
    ),
    (
        "prove f q 0000000001 a.c",
        "prove f q 1 [\"a.c\"] 4/8/16 returned 5000000",
    ),
    (
        "check f q 1 c a.c",
        "check f q 1 c [\"a.c\"] 4/8/16 returned",
    ),
    (
        "check --answers 2 f q 1 c a.c b.c",
        "check f q 1 c [\"a.c\", \"b.c\"] 4/8/2 returned",
    ),
    (
        "measure f q in a.c --ends trapped",
        "measure f q in [\"a.c\"] 100000 trapped false",
    ),
    (
        "generate --ends=any f q a.c",
        "generate f q [\"a.c\"] 4/8/16 any 5000000 false",
    ),
    (
        "prove --ends returned f q 1 a.c",
        "prove f q 1 [\"a.c\"] 4/8/16 returned 5000000",
    ),
    (
        "check f q 1 c a.c --ends any",
        "check f q 1 c [\"a.c\"] 4/8/16 any",
    ),
    ("bounds f a.c", "bounds f [\"a.c\"] 4/8/16 5000000"),
    (
        "bounds --turns 3 f --budget 1 a.c b.c",
        "bounds f [\"a.c\", \"b.c\"] 3/8/16 1",
    ),
    (
        "prove-bounds f a.c",
        "prove-bounds f [\"a.c\"] 4/8/16 5000000",
    ),
    (
        "prove-bounds --answers=0 f --budget 20000000 a.c b.c --turns 1000 --frames 64",
        "prove-bounds f [\"a.c\", \"b.c\"] 1000/64/0 20000000",
    ),
    ("check-bounds f c a.c", "check-bounds f c [\"a.c\"] 4/8/16"),
    (
        "check-bounds --turns 0 f c --frames=1 a.c -- --answers",
        "check-bounds f c [\"a.c\", \"--answers\"] 0/1/16",
    ),
    (
        "least f q 2 a.c --ends any --answers 0",
        "least f q 2 [\"a.c\"] 4/8/0 any 5000000",
    ),
    ("traces f in a.c", "traces f in [\"a.c\"] 100000 returned"),
    (
        "traces --steps 7 --ends trapped f in a.c",
        "traces f in [\"a.c\"] 7 trapped",
    ),
    ("replay f q t a.c", "replay f q t [\"a.c\"] returned false"),
    (
        "replay --json f q t a.c --ends any",
        "replay f q t [\"a.c\"] any true",
    ),
    ("trees f in a.c", "trees f in [\"a.c\"] 100000"),
    (
        "trees --steps 7 f in a.c b.c",
        "trees f in [\"a.c\", \"b.c\"] 7",
    ),
    ("events f in a.c", "events f in [\"a.c\"] 100000"),
    (
        "events --steps 7 f in a.c b.c",
        "events f in [\"a.c\", \"b.c\"] 7",
    ),
    ("graph a.c", "graph [\"a.c\"]"),
    ("graph a.c b.c a.c", "graph [\"a.c\", \"b.c\", \"a.c\"]"),
    ("graph _ -- --json -", "graph [\"\", \"--json\", \"-\"]"),
    ("sample 1", "sample 1"),
    ("sample 200", "sample 200"),
    ("sample -- 7", "sample 7"),
    ("measure f q in a.c --steps", "usage"),
    ("measure", "usage"),
];

// Lines that ask for nothing.
static REFUSED: [&str; 88] = [
    "measure f q in a.c --ends",
    "measure f q in a.c --ends blocked",
    "measure f q in a.c --ends Returned",
    "measure f q in a.c --ends any --ends any",
    "runs f in a.c --ends any",
    "measure f q in",
    "measure f q in --",
    "measure f q in a.c --json --json",
    "measure f q in a.c --steps 1 --steps 1",
    "measure f q in a.c --steps --json",
    "measure f q in a.c --steps -- 7",
    "measure f q in a.c --steps=",
    "measure f q in a.c --steps +7",
    "measure f q in a.c --steps -7",
    "measure f q in a.c --steps=-7",
    "measure f q in a.c --steps 00000000007",
    "measure f q in a.c --steps 0",
    "measure f q in a.c --steps 1000001",
    "measure f q in a.c --steps 4294967297",
    "measure f q in a.c --steps _",
    "measure f q in a.c --steps 7x",
    "measure f q in a.c --step 7",
    "measure f q in a.c --json=",
    "measure f q in a.c --json=true",
    "measure f q in a.c --turns 1",
    "measure f q in a.c --words x",
    "measure f q in a.c --=7",
    "measure f q in a.c -",
    "measure f q in a.c -h",
    "measure f q -in a.c",
    "measure f q in a.c --help",
    "measure f q in a.c --version",
    "generate f q",
    "generate f q a.c --turns 1001",
    "generate f q a.c --frames 0",
    "generate f q a.c --frames 65",
    "generate f q a.c --answers 257",
    "generate f q a.c --budget 0",
    "generate f q a.c --budget 20000001",
    "generate f q a.c --steps 1",
    "goals q",
    "goals q a.c --json",
    "runs f in",
    "runs f in a.c --json",
    "prove f q 0 a.c",
    "prove f q 10001 a.c",
    "prove f q x a.c",
    "prove f q 1",
    "prove f q 1 a.c --json",
    "check f q 1 c",
    "check f q 0 c a.c",
    "check f q 1 c a.c --budget 1",
    "bounds f",
    "bounds f a.c --ends any",
    "bounds f a.c --json",
    "bounds f a.c --frames 0",
    "prove-bounds f",
    "prove-bounds f a.c --ends any",
    "prove-bounds f a.c --json",
    "prove-bounds f a.c --budget 0",
    "prove-bounds f a.c --turns 1 --turns 1",
    "check-bounds f c",
    "check-bounds f c a.c --budget 1",
    "check-bounds f c a.c --ends any",
    "check-bounds f c a.c --answers 257",
    "least f q 0 a.c",
    "least f q 1",
    "least f q 1 a.c --json",
    "traces f in",
    "traces f in a.c --json",
    "replay f q t",
    "replay f q t a.c --steps 7",
    "trees f in",
    "trees f in a.c --ends any",
    "trees f in a.c --json",
    "trees f in a.c --steps 0",
    "events f in",
    "events f in a.c --ends any",
    "graph",
    "graph --",
    "graph a.c --json",
    "graph --steps 3 a.c",
    "graph -",
    "sample",
    "sample 0",
    "sample 201",
    "sample 1 1",
    "sample --json 1",
];

// First words that name no command.
static UNNAMED: [&str; 8] = [
    "_",
    "help",
    "help measure",
    "--help",
    "-- measure f q in a.c",
    "--json measure f q in a.c",
    "meas f q in a.c",
    "Measure f q in a.c",
];

#[test]
fn lines(rt: HostRuntime) -> Result<(), Fail> {
    let alloc = rt.alloc();
    for (line, want) in &ASKED {
        assert_eq!(rt; answer(alloc, line)?.as_str(), *want, "at {line}");
    }
    for line in &REFUSED {
        assert_eq!(rt; answer(alloc, line)?.as_str(), "usage", "at {line}");
    }
    for line in &UNNAMED {
        assert_eq!(rt; answer(alloc, line)?.as_str(), "usage", "at {line}");
    }
    assert_eq!(rt; request(alloc, &[]).err(), Some(Refused::Usage));
    Ok(())
}

// As many words as a shell lets through.
#[test]
fn ten_thousand_sources(rt: HostRuntime) -> Result<(), Fail> {
    let alloc = rt.alloc();
    let mut words = words(alloc, "goals q")?;
    for _ in 0..10_000 {
        words.push(String::from_str(alloc, "a.c")?)?;
    }
    match request(alloc, &words) {
        Ok(Request::Goals(goals)) => assert_eq!(rt; goals.sources.len(), 10_000),
        _ => return Err(Fail::from("no goals")),
    }
    Ok(())
}
