ghost use Rattle.std.specs.Prelude.{IsTrue, slice_get};
ghost use Rattle.std.specs.Option.{IsSomeAnd};
ghost use Rattle.c_meaning.specs.Starts.{CanStart};

use c_values::Kind;
use cfa::{Graph, GraphParts, Predicates};
use containers::Vector;
use fq_core::Memory;
use path_runner::{Ends, Input, PathRecord, RunEnd, Trap, trace_run};
use std::alloc::Global;
use test_graphs::draft::{Change, Draft, Row, Step};
use test_graphs::worked::{ARRAY, BRANCH, LOOP, RECURSION};

// A run of a graph: the word, the limit, the nodes and edges of its path, and its end.
type Case = (u64, u32, &'static [u32], &'static [u32], RunEnd);

static BRANCHES: [Case; 3] = [
    (
        5,
        100,
        &[0, 2, 1],
        &[1, 3],
        RunEnd::Returned { value: Some(0) },
    ),
    (
        11,
        100,
        &[0, 3, 1],
        &[0, 2],
        RunEnd::Returned { value: Some(1) },
    ),
    (11, 0, &[0], &[], RunEnd::Cut),
];

static TURNS: [Case; 3] = [
    (
        0,
        100,
        &[0, 2, 4, 3, 1],
        &[0, 1, 3, 6],
        RunEnd::Returned { value: Some(0) },
    ),
    (
        2,
        10,
        &[0, 2, 4, 5, 6, 4, 5, 6, 4, 3, 1],
        &[0, 1, 2, 4, 5, 2, 4, 5, 3, 6],
        RunEnd::Returned { value: Some(2) },
    ),
    (
        2,
        9,
        &[0, 2, 4, 5, 6, 4, 5, 6, 4, 3],
        &[0, 1, 2, 4, 5, 2, 4, 5, 3],
        RunEnd::Cut,
    ),
];

static CALLS: [Case; 1] = [(
    2,
    100,
    &[0, 2, 0, 2, 0, 3, 1, 4, 1, 4, 1],
    &[1, 3, 1, 3, 0, 2, 4, 5, 4, 5],
    RunEnd::Returned { value: Some(2) },
)];

static INDEXES: [Case; 4] = [
    (
        2,
        100,
        &[2, 4, 5, 0, 1, 6, 3],
        &[1, 2, 3, 0, 4, 5],
        RunEnd::Returned { value: Some(7) },
    ),
    (
        0,
        100,
        &[2, 4, 5, 0, 1, 6, 3],
        &[1, 2, 3, 0, 4, 5],
        RunEnd::Returned { value: Some(0) },
    ),
    (3, 100, &[2, 4], &[1], RunEnd::Trapped(Trap::Index)),
    (u64::MAX, 100, &[2, 4], &[1], RunEnd::Trapped(Trap::Index)),
];

// Whether a run can start so.
fn can_start(graph: &Graph, entry: u32, input: &Input) -> bool
    ensures { IsTrue result → IsSomeAnd (slice_get graph.now.functions entry) (λ f. CanStart f input.now.words) }
{
    match graph.functions().get(entry as usize) {
        None => false,
        Some(function) => {
            function.arrays.is_empty() && input.words.len() == function.parameters.len()
        }
    }
}

fn input_of(alloc: Global, words: &[u64], answers: &[u64]) -> Result<Input, Memory> {
    Ok(Input {
        words: Vector::from_vec(Vec::from_slice(alloc, words)?),
        answers: Vector::from_vec(Vec::from_slice(alloc, answers)?),
    })
}

// The path of a run, with no predicates; none where there is no graph or no memory.
fn path_of(
    alloc: Global,
    parts: GraphParts,
    entry: u32,
    input: &Input,
    limit: u32,
) -> Option<PathRecord> {
    let Ok(graph) = Graph::new(alloc, parts) else {
        return None;
    };
    if !can_start(&graph, entry, input) {
        return None;
    }
    let none = Predicates {
        texts: Vector::new(alloc),
        meanings: Vector::new(alloc),
    };
    match trace_run(alloc, &graph, entry, input, &none, limit as u64) {
        Ok(path) => Some(path),
        Err(_) => None,
    }
}

fn path_on(alloc: Global, draft: &Draft, entry: u32, word: u64, limit: u32) -> Option<PathRecord> {
    let Ok(input) = input_of(alloc, &[word], &[]) else {
        return None;
    };
    let parts = draft.parts(alloc, Change::Nothing, Change::Nothing);
    path_of(alloc, parts, entry, &input, limit)
}

fn ends_so(end: &RunEnd, want: &RunEnd) -> bool {
    match (end, want) {
        (RunEnd::Returned { value: left }, RunEnd::Returned { value: right }) => left == right,
        (RunEnd::Trapped(left), RunEnd::Trapped(right)) => left == right,
        (RunEnd::Blocked, RunEnd::Blocked) => true,
        (RunEnd::TooDeep, RunEnd::TooDeep) => true,
        (RunEnd::Cut, RunEnd::Cut) => true,
        _ => false,
    }
}

// Whether a run takes the path that is wanted, on which no predicate holds and no answer is read.
fn goes(alloc: Global, draft: &Draft, entry: u32, case: &Case) -> bool {
    match path_on(alloc, draft, entry, case.0, case.1) {
        None => false,
        Some(path) => {
            path.nodes.as_slice() == case.2
                && path.edges.as_slice() == case.3
                && path.masks.len() == case.2.len()
                && path.masks.iter().all(|mask| *mask == 0)
                && path.taken.is_empty()
                && ends_so(&path.end, &case.4)
        }
    }
}

// The first run that takes another path than is wanted.
fn first_wrong(alloc: Global, draft: &Draft, entry: u32, cases: &[Case]) -> Option<usize> {
    for (at, case) in cases.iter().enumerate() {
        if !goes(alloc, draft, entry, case) {
            return Some(at);
        }
    }
    None
}

#[test]
fn runs_take_their_paths(rt: HostRuntime) {
    let branches = first_wrong(rt.alloc(), &BRANCH, 0, &BRANCHES);
    assert_eq!(rt; branches, None);
    let turns = first_wrong(rt.alloc(), &LOOP, 0, &TURNS);
    assert_eq!(rt; turns, None);
    let calls = first_wrong(rt.alloc(), &RECURSION, 0, &CALLS);
    assert_eq!(rt; calls, None);
    let indexes = first_wrong(rt.alloc(), &ARRAY, 1, &INDEXES);
    assert_eq!(rt; indexes, None);
}

// Whether the run of the recursion on a word takes so many edges and ends so.
fn recurs(alloc: Global, word: u64, edges: usize, end: &RunEnd) -> bool {
    match path_on(alloc, &RECURSION, 0, word, 1000) {
        None => false,
        Some(path) => path.edges.len() == edges && ends_so(&path.end, end),
    }
}

// With 63 calls there are 64 frames. Before the 64th, 63 calls with the guards before them were taken, and a guard.
#[test]
fn sixty_four_frames_may_stand(rt: HostRuntime) {
    let most = recurs(rt.alloc(), 63, 254, &RunEnd::Returned { value: Some(63) });
    assert!(rt; most);
    let more = recurs(rt.alloc(), 64, 127, &RunEnd::TooDeep);
    assert!(rt; more);
}

const UNSIGNED_CHAR: Kind = Kind {
    width: 8,
    signed: false,
};

// The loop, which reads an answer in place of counting, so that it doesn't end.
fn reading_parts(alloc: Global) -> GraphParts {
    let reads = Row {
        file: 0,
        ends: (5, 6),
        function: 0,
        step: Step::Answer(0),
    };
    LOOP.parts(alloc, Change::Row(4, reads), Change::Input(UNSIGNED_CHAR))
}

fn reading_path(alloc: Global) -> Option<PathRecord> {
    let Ok(input) = input_of(alloc, &[1], &[300, 5]) else {
        return None;
    };
    path_of(alloc, reading_parts(alloc), 0, &input, 11)
}

// Whether three answers are read: 300 modulo 256, 5, and 0 past the end of the list.
fn reads_three(alloc: Global) -> bool {
    match reading_path(alloc) {
        None => false,
        Some(path) => {
            path.edges.as_slice() == [0, 1, 2, 4, 5, 2, 4, 5, 2, 4, 5].as_slice()
                && path.taken.as_slice()
                    == [(UNSIGNED_CHAR, 44), (UNSIGNED_CHAR, 5), (UNSIGNED_CHAR, 0)].as_slice()
                && ends_so(&path.end, &RunEnd::Cut)
        }
    }
}

#[test]
fn answers_are_read_in_order(rt: HostRuntime) {
    let found = reads_three(rt.alloc());
    assert!(rt; found);
}

// Ends of recorded runs, and whether they are counted where returns, traps and any end are.
static COUNTED: [(RunEnd, [bool; 3]); 6] = [
    (RunEnd::Returned { value: Some(7) }, [true, true, true]),
    (RunEnd::Returned { value: None }, [true, true, true]),
    (RunEnd::Trapped(Trap::Index), [false, true, true]),
    (RunEnd::Blocked, [false, false, true]),
    (RunEnd::TooDeep, [false, false, true]),
    (RunEnd::Cut, [false, false, false]),
];

fn counts_so(end: &RunEnd, want: &[bool; 3]) -> bool {
    end.is_counted(Ends::Returned) == want[0]
        && end.is_counted(Ends::Trapped) == want[1]
        && end.is_counted(Ends::Any) == want[2]
}

#[test]
fn ends_count_by_what_is_asked(rt: HostRuntime) {
    let right = COUNTED.iter().all(|case| counts_so(&case.0, &case.1));
    assert!(rt; right);
}
