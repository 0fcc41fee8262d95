// Runs of small programs, each counted by hand: symbolic steps over inputs, read in the world of an input.
ghost use Rattle.std.specs.Prelude.{◌≡◌, ℕ, All, IfOk, IfSome, IsTrue, slice_get, slice_index};
ghost use Rattle.std.specs.Option.{IsSomeAnd};
ghost use Rattle.circuit.specs.Truth.{World};
ghost use Rattle.circuit.specs.Wires.{IsWire};
ghost use Rattle.bit_words.specs.Words.{Grows};
ghost use Rattle.cfa.specs.Each.{Each};
ghost use Rattle.cfa.specs.States.{IsState};
ghost use Rattle.c_meaning.specs.Steps.{next};
ghost use Rattle.sym_expr.specs.Weights.{operations_weight};
ghost use Rattle.sym_expr.specs.sym_steps.Starts.{CanStartWith};
ghost use Rattle.sym_expr.specs.sym_steps.Steps.{AreStates, IsStep, state_after};
ghost use Rattle.unwinder_reach.specs.unwinding_size.Capped.{capped};

use bit_words::{Word, extended};
use c_values::{Kind, is_kind};
use cfa::Graph;
use circuit::{Circuit, Memory};
use std::alloc::Global;
use std::test::Fail;
use sym_expr::SymStore;
use sym_expr::sym_steps::{SymState, SymStep, start, step};
use test_expressions::free_store;
use test_programs::graph_of;
use test_words::{pattern_in, world_of};
use unwinder_reach::unwinding_size::node_weights;

/// How a symbolic run ends in a world.
#[derive(Clone, Copy, Debug, PartialEq, Eq)]
enum End {
    /// With what the cell of the result holds.
    Returned(u64),
    Trapped,
    /// Blocked or too deep.
    Stopped,
    /// It would go on.
    Cut,
    /// A condition of a call doesn't hold.
    Refused,
}

// A source, the words of a run and then its answers, and how it ends.
type Row = (&'static str, &'static [u64], End);

const BRANCH: &str = "int f(int x) { if (x > 10) { return 1; } return 0; }";

const ELEMENTS: &str = "int a[4]; int f(int x) { a[x] = 7; return a[1] + a[3]; }";

const CALLS: &str =
    "int g(int v) { return v * 2; } int f(int x) { int y = g(x + 1); return y - 1; }";

const DEPTH: &str = "int f(int n) { if (n <= 0) { return 0; } return f(n - 1) + 1; }";

const ANSWERS: &str =
    "int next(void); int f(int x) { int a = next(); int b = next(); return a * 10 + b + x; }";

const CHECKS: &str = "int f(int x) { assume(x > 0); assert(x != 5); return x; }";

const QUOTIENT: &str = "int f(int x, int y) { return x / y; }";

const LENT: &str = "int set(int v[3], int k) { v[k] = 9; return 0; }
int f(int k) { int v[3]; set(v, k); return v[2]; }";

static RUNS: [Row; 22] = [
    (BRANCH, &[5], End::Returned(0)),
    (BRANCH, &[11], End::Returned(1)),
    (ELEMENTS, &[0], End::Returned(0)),
    (ELEMENTS, &[1], End::Returned(7)),
    (ELEMENTS, &[3], End::Returned(7)),
    (ELEMENTS, &[4], End::Trapped),
    (ELEMENTS, &[0xffff_ffff_ffff_ffff], End::Trapped),
    (CALLS, &[3], End::Returned(7)),
    (CALLS, &[20], End::Returned(41)),
    (DEPTH, &[0], End::Returned(0)),
    (DEPTH, &[5], End::Returned(5)),
    (DEPTH, &[63], End::Returned(63)),
    (DEPTH, &[64], End::Stopped),
    (ANSWERS, &[0, 4, 2], End::Returned(42)),
    (ANSWERS, &[5, 4], End::Returned(45)),
    (CHECKS, &[0], End::Stopped),
    (CHECKS, &[5], End::Trapped),
    (CHECKS, &[6], End::Returned(6)),
    (QUOTIENT, &[7, 2], End::Returned(3)),
    (QUOTIENT, &[7, 0], End::Trapped),
    (LENT, &[2], End::Returned(9)),
    (LENT, &[3], End::Trapped),
];

// What comes next, and none where the wires may not suffice.
fn stepped(
    circuit: &mut Circuit,
    graph: &Graph,
    weights: &[u64],
    state: SymState,
    answers: &[Word],
) -> Result<Option<SymStep>, Memory>
    requires states { AreStates graph.now circuit.old state }
    requires cells { All (All (IsWire circuit.old)) state.store.cells }
    requires words { All (All (IsWire circuit.old)) answers.now }
    requires weights { (node : ℕ) → slice_index weights.now node ≡ capped (operations_weight graph.now node) }
    ensures grows { (n : ℕ) × Grows circuit.old circuit.new n }
    ensures step { IfOk result (λ o. IfSome o (λ t. IsStep graph.now circuit.old circuit.new answers.now state (λ input x. next graph.now input x) t)) }
{
    let Some(weight) = weights.get(state.node as usize) else {
        return Ok(None);
    };
    let wires = circuit.wires() as u64;
    if *weight > 4_194_304 || wires > 1 << 29 || state.taken > 1000 {
        return Ok(None);
    }
    let step = step(circuit, graph, state, answers)?;
    Ok(Some(step))
}

// The symbolic state at the target of a way.
fn along(circuit: &Circuit, graph: &Graph, step: SymStep, at: usize) -> Option<SymState>
    requires keeps { Each step.ways (λ k way. IsSomeAnd (slice_get graph.now.edges way.edge) (λ e. (w : World) → IsState graph.now (state_after circuit.now step e.target w))) }
    ensures { IfSome result (λ s. AreStates graph.now circuit.now s × (s.store.cells ≡ step.store.cells)) }
{
    let way = step.ways.get(at)?;
    let edge = graph.edges().get(way.edge as usize)?;
    let SymStep {
        ways: _ways,
        traps: _traps,
        returns: _returns,
        frames,
        store,
        taken,
    } = step;
    Some(SymState {
        node: edge.target,
        frames,
        store,
        taken,
    })
}

// The place of the first way that is taken in a world, or how many there are.
fn way_in(circuit: &Circuit, step: &SymStep, world: &[bool]) -> Result<usize, Memory>
    requires { Each step.now.ways (λ k way. IsWire circuit.now way.taken) }
{
    for at in 0..step.ways.len() {
        if circuit.value(step.ways[at].taken, world)? {
            return Ok(at);
        }
    }
    Ok(step.ways.len())
}

// How a step ends a run in a world, where it goes on along no way.
fn end_in(circuit: &Circuit, step: &SymStep, world: &[bool]) -> Result<End, Memory>
    requires cells { All (All (IsWire circuit.now)) step.now.store.cells }
    requires trap { IsWire circuit.now step.now.traps }
{
    if circuit.value(step.traps, world)? {
        return Ok(End::Trapped);
    }
    if !step.returns {
        return Ok(End::Stopped);
    }
    let Some(frame) = step.frames.get(0) else {
        return Ok(End::Refused);
    };
    match step.store.cells.get(frame.base as usize) {
        None => Ok(End::Refused),
        Some(word) => Ok(End::Returned(pattern_in(circuit, word, world)?)),
    }
}

// How many edges a run takes from a state on in a world, at most so many, and how it ends.
fn run_in(
    circuit: &mut Circuit,
    graph: &Graph,
    weights: &[u64],
    first: SymState,
    answers: &[Word],
    world: &[bool],
    most: u32,
) -> Result<(u32, End), Memory>
    requires states { AreStates graph.now circuit.old first }
    requires cells { All (All (IsWire circuit.old)) first.store.cells }
    requires words { All (All (IsWire circuit.old)) answers.now }
    requires weights { (node : ℕ) → slice_index weights.now node ≡ capped (operations_weight graph.now node) }
{
    let mut state = first;
    for taken in 0..most {
        let Some(step) = stepped(circuit, graph, weights, state, answers)? else {
            return Ok((taken, End::Refused));
        };
        let way = way_in(circuit, &step, world)?;
        if way == step.ways.len() {
            return Ok((taken, end_in(circuit, &step, world)?));
        }
        match along(circuit, graph, step, way) {
            None => return Ok((taken, End::Refused)),
            Some(next) => state = next,
        }
    }
    Ok((most, End::Cut))
}

// Whether runs can start at a function with so many words.
fn can_start(graph: &Graph, entry: u32, words: &[Word]) -> bool
    ensures { IsTrue result → IsSomeAnd (slice_get graph.now.functions entry) (λ f. CanStartWith f words.now) }
{
    match graph.functions().get(entry as usize) {
        None => false,
        Some(function) => { function.parameters.len() == words.len() && function.arrays.is_empty() }
    }
}

// The first words of some, each as a value of its parameter's kind, and none where there are too few.
fn fitted(
    alloc: Global,
    circuit: &Circuit,
    words: &[Word],
    kinds: &[Kind],
) -> Result<Option<Vec<Word>>, Memory>
    requires { All (All (IsWire circuit.now)) words.now }
    ensures { IfOk result (λ o. IfSome o (λ fitted. All (All (IsWire circuit.now)) fitted.items)) }
{
    let mut fitted = Vec::new(alloc);
    for at in 0..kinds.len() {
        let kind = kinds[at];
        if at >= words.len() || !is_kind(kind) {
            return Ok(None);
        }
        fitted.push(extended(&words[at], kind))?;
    }
    Ok(Some(fitted))
}

// The words behind so many.
fn rest(alloc: Global, circuit: &Circuit, words: &[Word], from: usize) -> Result<Vec<Word>, Memory>
    requires { All (All (IsWire circuit.now)) words.now }
    ensures { IfOk result (λ rest. All (All (IsWire circuit.now)) rest.items) }
{
    let mut rest = Vec::new(alloc);
    for at in from..words.len() {
        rest.push(words[at])?;
    }
    Ok(rest)
}

// The words of a store's cells.
fn words_of(circuit: &Circuit, store: &SymStore) -> Result<Vec<Word>, Memory>
    requires { All (All (IsWire circuit.now)) store.now.cells }
    ensures { IfOk result (λ words. All (All (IsWire circuit.now)) words.items) }
{
    let count = store.cells.len();
    let words = store.cells.range(0, count)?;
    Ok(words)
}

// How a run of `f` in a source ends, within so many edges, whose words and then whose answers are these.
fn ends(alloc: Global, source: &str, patterns: &[u64], most: u32) -> Result<(u32, End), Memory> {
    let refused = (0, End::Refused);
    let Ok(graph) = graph_of(alloc, b"a.c", source) else {
        return Ok(refused);
    };
    if patterns.len() > 100 {
        return Ok(refused);
    }
    let Some(entry) = graph.function_named(b"f") else {
        return Ok(refused);
    };
    let Some(function) = graph.functions().get(entry as usize) else {
        return Ok(refused);
    };
    let mut circuit = Circuit::new(alloc);
    let store = free_store(alloc, &mut circuit, patterns.len() as u32)?;
    let inputs = words_of(&circuit, &store)?;
    let Some(words) = fitted(alloc, &circuit, &inputs, &function.parameters)? else {
        return Ok(refused);
    };
    if !can_start(&graph, entry, &words) {
        return Ok(refused);
    }
    let Ok(weights) = node_weights(alloc, &graph) else {
        return Err(Memory);
    };
    let first = start(alloc, &graph, entry, &words)?;
    let world = world_of(alloc, patterns)?;
    let answers = rest(alloc, &circuit, &inputs, words.len())?;
    run_in(
        &mut circuit,
        &graph,
        &weights,
        first,
        &answers,
        &world,
        most,
    )
}

#[test]
fn runs_by_hand(rt: HostRuntime) -> Result<(), Fail> {
    for (source, patterns, end) in &RUNS {
        let found = ends(rt.alloc(), source, patterns, 1000)?;
        assert_eq!(rt; found.1, *end, "{source} of {patterns:?}");
    }
    Ok(())
}

const LOOP: &str =
    "int f(int n) { int s = 0; for (int i = 0; i < n; i++) { s = s + i; } return s; }";

// 0 + 1 + .. + 99 in 100 turns, and a run that is cut.
#[test]
fn many_steps(rt: HostRuntime) -> Result<(), Fail> {
    let found = ends(rt.alloc(), LOOP, &[100], 1000)?;
    assert_eq!(rt; found.1, End::Returned(4950));
    let found = ends(rt.alloc(), LOOP, &[100], 100)?;
    assert_eq!(rt; found, (100, End::Cut));
    Ok(())
}
