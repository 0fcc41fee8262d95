// Unwindings of small programs: what is listed of each run, counted by hand from the source and the automaton's table.
ghost use Rattle.std.specs.Prelude.{◌≡◌, ◌≤◌, [], All, IfOk, IfSome, slice_get};
ghost use Rattle.std.specs.Option.{IsSomeAnd};
ghost use Rattle.circuit.specs.Wires.{IsWire};
ghost use Rattle.cfa.specs.Contexts.{IsOnce};
ghost use Rattle.cfa.specs.Each.{Each};
ghost use Rattle.cfa.specs.Predicates.{IsPredicates};
ghost use Rattle.cfa.specs.declared.state.Predicates.{Predicates as GivenPredicates};
ghost use Rattle.unwinder.specs.Unwinding.{IsEntry};

mod cases;

use c_front::automaton_of_texts;
use c_meaning::Ends;
use cases::{CASES, Case, LOOP, NESTED};
use cfa::{Graph, Predicates};
use circuit::{Circuit, Memory};
use fq_core::{Fault, Place, Refusal};
use fql_read::read_query;
use predicates::resolve;
use std::alloc::Global;
use std::fmt::Write;
use std::test::Fail;
use test_programs::texts_of;
use unwinder::{Entry, Unwound, unwind};
use unwinder_reach::reached::Bounds;

fn predicates_of(alloc: Global, graph: &Graph, query: &str) -> Result<Predicates, Fault>
    ensures { IfOk result (λ p. IsPredicates graph.now p) }
{
    let query = read_query(alloc, query.as_bytes())?;
    resolve(alloc, &query, graph)
}

// The function `f`, where it has no array parameters.
fn entry_of(graph: &Graph) -> Option<u32>
    ensures { IfSome result (λ entry. IsSomeAnd (slice_get graph.now.functions entry) (λ f. f.arrays ≡ [])) }
{
    let entry = graph.function_named(b"f")?;
    let function = graph.functions().get(entry as usize)?;
    if function.arrays.is_empty() {
        Some(entry)
    } else {
        None
    }
}

// An unwinding, of whose entries the literals are the circuit's.
fn unwound_of(
    alloc: Global,
    graph: &Graph,
    entry: u32,
    predicates: &Predicates,
    bounds: Bounds,
    ends: Ends,
) -> Result<Unwound, Fault>
    requires once { IsOnce graph.now }
    requires entry { IsSomeAnd (slice_get graph.now.functions entry) (λ f. f.arrays ≡ []) }
    requires predicates { IsPredicates graph.now predicates.now }
    requires frames { 1 ≤ bounds.frames }
    requires answers { bounds.answers ≤ 256 }
    ensures { IfOk result (λ u. Each u.entries (λ k e. (p : GivenPredicates) × IsEntry p u.circuit e)) }
{
    unwind(alloc, graph, entry, predicates, bounds, ends)
}

fn unwound_in(
    alloc: Global,
    source: &str,
    query: &str,
    bounds: Bounds,
    ends: Ends,
) -> Result<Result<Unwound, Refusal>, Fail>
    ensures { IfOk result (λ r. IfOk r (λ u. Each u.entries (λ k e. (p : GivenPredicates) × IsEntry p u.circuit e))) }
{
    let Ok(texts) = texts_of(alloc, &[("a.c", source)]) else {
        return Err(Fail::from("no memory"));
    };
    if !c_lex::are_small(&texts) || texts.len() != 1 {
        return Err(Fail::from("no unit"));
    }
    let Ok(graph) = automaton_of_texts(alloc, &texts) else {
        return Err(Fail::from("no automaton"));
    };
    let Ok(predicates) = predicates_of(alloc, &graph, query) else {
        return Err(Fail::from("no predicates"));
    };
    let Some(entry) = entry_of(&graph) else {
        return Err(Fail::from("no function"));
    };
    if bounds.frames == 0 || bounds.answers > 256 {
        return Err(Fail::from("no bounds"));
    }
    match unwound_of(alloc, &graph, entry, &predicates, bounds, ends) {
        Ok(unwound) => Ok(Ok(unwound)),
        Err(Fault::Refused(refusal)) => Ok(Err(refusal)),
        Err(Fault::Memory) => Err(Fail::from("no memory")),
    }
}

// The world in which words have these patterns, of the widths and then of 64 bits, the lowest bit first.
fn world_of(alloc: Global, widths: &[u32], patterns: &[u64]) -> Result<Vec<bool>, Memory> {
    let mut world = Vec::new(alloc);
    for at in 0..patterns.len() {
        let width = widths.get(at).copied().unwrap_or(64);
        for i in 0..width {
            world.push(patterns[at] >> (i % 64) & 1 == 1)?;
        }
    }
    Ok(world)
}

// An entry that holds in a world: the edge into it, its node, a sign for each predicate, and a mark where the run ends.
fn push_entry(
    text: &mut String,
    circuit: &Circuit,
    entry: &Entry,
    world: &[bool],
) -> Result<(), Fail>
    requires guard { IsWire circuit.now entry.now.guard }
    requires ended { IsWire circuit.now entry.now.ended }
    requires truths { All (IsWire circuit.now) entry.now.predicates }
{
    if !circuit.value(entry.guard, world)? {
        return Ok(());
    }
    if let Some(edge) = entry.edge {
        write!(text, " {edge}>")?;
    }
    let node = entry.node;
    write!(text, "{node}")?;
    for at in 0..entry.predicates.len() {
        let holds = circuit.value(entry.predicates[at], world)?;
        text.push_str(if holds { "+" } else { "-" })?;
    }
    if circuit.value(entry.ended, world)? {
        text.push_str("!")?;
    }
    Ok(())
}

// The entries that hold in a world.
fn listed(alloc: Global, unwound: &Unwound, world: &[bool]) -> Result<String, Fail>
    requires { Each unwound.now.entries (λ k e. (p : GivenPredicates) × IsEntry p unwound.now.circuit e) }
{
    let mut text = String::new(alloc);
    for at in 0..unwound.entries.len() {
        push_entry(&mut text, &unwound.circuit, &unwound.entries[at], world)?;
    }
    Ok(text)
}

fn refusal_in(alloc: Global, source: &str, turns: u32) -> Result<Option<(u16, u64)>, Fail> {
    let bounds = Bounds {
        turns,
        frames: 8,
        answers: 16,
    };
    match unwound_in(alloc, source, "cover ID", bounds, Ends::Returned)? {
        Err(
            Refusal {
                code,
                place: Place::Limit { number },
            },
        ) => Ok(Some((code, number))),
        Err(_) => Err(Fail::from("no limit")),
        Ok(_) => Ok(None),
    }
}

// How many pairs and entries a case has, and what is listed of its runs.
fn found(alloc: Global, case: &Case) -> Result<String, Fail> {
    let Ok(unwound) = unwound_in(alloc, case.source, case.query, case.bounds, case.ends)? else {
        return Err(Fail::from("refused"));
    };
    let mut text = String::new(alloc);
    let pairs = unwound.pairs;
    let entries = unwound.entries.len();
    write!(text, "{pairs} {entries}")?;
    for (patterns, _expected) in case.runs {
        let world = world_of(alloc, case.widths, patterns)?;
        let list = listed(alloc, &unwound, &world)?;
        write!(text, "; {list}")?;
    }
    Ok(text)
}

fn expected(alloc: Global, case: &Case) -> Result<String, Fail> {
    let mut text = String::new(alloc);
    let (pairs, entries) = case.counts;
    write!(text, "{pairs} {entries}")?;
    for (_patterns, list) in case.runs {
        write!(text, "; {list}")?;
    }
    Ok(text)
}

#[test]
fn runs_by_hand(rt: HostRuntime) -> Result<(), Fail> {
    for case in &CASES {
        let found = found(rt.alloc(), case)?;
        let expected = expected(rt.alloc(), case)?;
        assert_eq!(rt; found.as_str(), expected.as_str(), "{}", case.source);
    }
    Ok(())
}

// The statements `x = x / y` of 64 bits weigh 65,536 each, and 64 of them are just at the limit.
fn quotients(alloc: Global, count: u32) -> Result<String, Fail> {
    let mut source = String::new(alloc);
    source.push_str("long f(long x, long y) {")?;
    for _ in 0..count {
        source.push_str(" x = x / y;")?;
    }
    source.push_str(" return x; }")?;
    Ok(source)
}

#[test]
fn refusals(rt: HostRuntime) -> Result<(), Fail> {
    assert_eq!(rt; refusal_in(rt.alloc(), NESTED, 1)?, None);
    assert_eq!(rt; refusal_in(rt.alloc(), NESTED, 1000)?, Some((80, 50_000)));
    let source = quotients(rt.alloc(), 65)?;
    assert_eq!(rt;
        refusal_in(rt.alloc(), source.as_str(), 0)?,
        Some((81, 4_194_304))
    );
    Ok(())
}

// How many entries hold in a world, and for how many of them the run ends.
fn held(unwound: &Unwound, world: &[bool]) -> Result<(u32, u32), Memory>
    requires { Each unwound.now.entries (λ k e. (p : GivenPredicates) × IsEntry p unwound.now.circuit e) }
{
    let mut held: u32 = 0;
    let mut ended: u32 = 0;
    for at in 0..unwound.entries.len() {
        let entry = &unwound.entries[at];
        if unwound.circuit.value(entry.guard, world)? {
            held = held.wrapping_add(1);
            if unwound.circuit.value(entry.ended, world)? {
                ended = ended.wrapping_add(1);
            }
        }
    }
    Ok((held, ended))
}

// The unwinding of the loop with so many turns.
fn turned(alloc: Global, turns: u32) -> Result<Unwound, Fail>
    ensures { IfOk result (λ u. Each u.entries (λ k e. (p : GivenPredicates) × IsEntry p u.circuit e)) }
{
    let bounds = Bounds {
        turns,
        frames: 1,
        answers: 0,
    };
    match unwound_in(alloc, LOOP, "cover {i > 0}", bounds, Ends::Returned)? {
        Ok(unwound) => Ok(unwound),
        Err(_) => Err(Fail::from("refused")),
    }
}

// A run of n turns is in 3n + 5 states: two before the loop, three in each turn, the loop's head once more and two behind
// it. Where there are too many turns the last of them is left out, with what comes behind it.
#[test]
fn many_turns(rt: HostRuntime) -> Result<(), Fail> {
    let unwound = turned(rt.alloc(), 20)?;
    for (n, expected) in [(0, (5, 1)), (19, (62, 1)), (20, (65, 1)), (21, (65, 0))] {
        let world = world_of(rt.alloc(), &[32], &[n])?;
        assert_eq!(rt; held(&unwound, &world)?, expected, "{n}");
    }
    Ok(())
}

// Seven pairs and three more for each turn, six steps and four more for each turn, and an entry for the start.
#[test]
fn many_pairs(rt: HostRuntime) -> Result<(), Fail> {
    let unwound = turned(rt.alloc(), 1000)?;
    assert_eq!(rt; (unwound.pairs, unwound.entries.len()), (3007, 4007));
    assert_eq!(rt; (unwound.words.len(), unwound.answers.len()), (1, 0));
    Ok(())
}
