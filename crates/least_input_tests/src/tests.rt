// Least inputs of the goals of small programs, worked by hand.
ghost use Rattle.std.specs.Prelude.{IfOk};
ghost use Rattle.cfa.specs.Contexts.{IsOnce};
ghost use Rattle.fql_read.specs.Usable.{IsUsable};

use c_front::automaton_of_texts;
use c_meaning::Ends;
use cfa::Graph;
use fq_core::Fault;
use fql_read::{Query, read_query};
use goals::plan_of;
use least_input::{Least, find_least};
use predicates::resolve;
use std::alloc::Global;
use std::test::Fail;
use suite::Sought;
use suite_problem::{Entry, Given, Goal, Planned};
use test_programs::texts_of;
use test_unwindings::entry_of;
use unwinder_reach::reached::Bounds;

// A program, a query whose first goal is asked, and the words and answers of its least input, with how many bits of them
// are 1.
type Row = (&'static str, &'static str, &'static [u64], [u64; 2], usize);

const BRANCH: &str = "int f(int x) {
  if (x > 10) {
    return 1;
  }
  return 0;
}";

// A number below 0 is less than none that isn't: words have no sign.
const NEGATIVE: &str = "int f(int x) {
  if (x < 0) {
    return 1;
  }
  return 0;
}";

// -128 is the least pattern below -1.
const SMALL: &str = "int f(signed char x, signed char y) {
  if (x == y && x < -1) {
    return 1;
  }
  return 0;
}";

// The first answer is read only where the argument is 1.
const READS: &str = "int in(void);
int f(int x) {
  int s = 0;
  if (x == 1) {
    s = in();
  }
  int t = in();
  if (s == 5 && t == 9) {
    return 1;
  }
  return 0;
}";

// Words decide before answers.
const SUM: &str = "int in(void); int f(int x) { if (x + in() == 3) { return 1; } return 0; }";

const NEVER: &str = "int f(int x) {
  if (x > 10 && x < 5) {
    return 1;
  }
  return 0;
}";

const BOUNDS: Bounds = Bounds {
    turns: 3,
    frames: 1,
    answers: 2,
};

static ROWS: [Row; 6] = [
    (BRANCH, "cover @LINE(3)", &[11], [0, 0], 3),
    (BRANCH, "cover @LINE(5)", &[0], [0, 0], 0),
    (NEGATIVE, "cover @LINE(3)", &[2_147_483_648], [0, 0], 1),
    (SMALL, "cover @LINE(3)", &[128, 128], [0, 0], 2),
    (READS, "cover @LINE(9)", &[1], [5, 9], 5),
    (SUM, "cover EDGES(@CONDITIONEDGE)", &[0], [3, 0], 2),
];

// The automaton of a source.
fn automaton_of(alloc: Global, source: &str) -> Result<Graph, Fail>
    ensures { IfOk result (λ graph. IsOnce graph) }
{
    let Ok(texts) = texts_of(alloc, &[("a.c", source)]) else {
        return Err(Fail::from("no memory"));
    };
    if !c_lex::are_small(&texts) || texts.len() != 1 {
        return Err(Fail::from("no unit"));
    }
    match automaton_of_texts(alloc, &texts) {
        Ok(graph) => Ok(graph),
        Err(_) => Err(Fail::from("no automaton")),
    }
}

// The predicates and the goals of a query.
fn planned_of<'a>(alloc: Global, entry: Entry<'a>, query: &Query) -> Result<Planned<'a>, Fault>
    requires { IsUsable query.now }
{
    let predicates = resolve(alloc, query, entry.graph)?;
    let plan = plan_of(alloc, query, entry.graph)?;
    Ok(Planned {
        entry,
        predicates,
        plan,
    })
}

// What is found of the first goal of a query.
fn found_in(alloc: Global, entry: Entry, query: &Query, budget: u64) -> Result<Least, Fault>
    requires { IsUsable query.now }
{
    let given = Given {
        planned: planned_of(alloc, entry, query)?,
        bounds: BOUNDS,
        ends: Ends::Returned,
    };
    let goal = Goal {
        given: &given,
        number: 1,
    };
    let mut sought = Sought::at(alloc, goal)?;
    let least = find_least(alloc, &mut sought, budget)?;
    Ok(least)
}

fn found_of(alloc: Global, source: &str, query: &str, budget: u64) -> Result<Least, Fail> {
    let graph = automaton_of(alloc, source)?;
    let Ok(query) = read_query(alloc, query.as_bytes()) else {
        return Err(Fail::from("no query"));
    };
    let Some(number) = entry_of(&graph) else {
        return Err(Fail::from("no function"));
    };
    let function = &graph.functions()[number as usize];
    if function.arrays.len() > 0 {
        return Err(Fail::from("no entry"));
    }
    let entry = Entry {
        graph: &graph,
        number,
        function,
    };
    match found_in(alloc, entry, &query, budget) {
        Ok(found) => Ok(found),
        Err(_) => Err(Fail::from("refused")),
    }
}

#[test]
fn least_by_hand(rt: HostRuntime) -> Result<(), Fail> {
    for (source, query, words, answers, ones) in &ROWS {
        let Least::Found { input, fixed, .. } = found_of(rt.alloc(), source, query, 1_000_000)?
        else {
            return Err(Fail::from("not found"));
        };
        assert_eq!(rt; input.words.as_slice(), *words, "{query} of {source}");
        assert_eq!(rt;
            input.answers.as_slice(),
            answers.as_slice(),
            "{query} of {source}"
        );
        assert_eq!(rt; fixed.len(), *ones, "{query} of {source}");
    }
    Ok(())
}

#[test]
fn refuted_and_open(rt: HostRuntime) -> Result<(), Fail> {
    let Least::Refuted { derivation, .. } = found_of(
        rt.alloc(),
        NEVER,
        "cover @LINE(3)",
        1_000_000,
    )?
    else {
        return Err(Fail::from("not refuted"));
    };
    assert!(rt; !derivation.lines.is_empty());
    let Least::Open { history, .. } = found_of(rt.alloc(), BRANCH, "cover @LINE(3)", 1)? else {
        return Err(Fail::from("not open"));
    };
    assert_eq!(rt; history.moves.len(), 1);
    Ok(())
}
