// Programs, each with a function, an input, how many turns there are, and how the run ends.
ghost use Rattle.std.specs.Prelude.{IfOk};
ghost use Rattle.tree_meaning.specs.Running.{FitUnit};

use c_front::typed_sources::typed_of_texts;
use c_lex::{SourceText, are_small};
use c_meaning::Input;
use c_typed_trees::Typed;
use containers::Vector;
use fq_core::{Fault, Name};
use std::alloc::Global;
use std::fmt::Write;
use std::test::Fail;
use tree_meaning::{TreeEnd, tree_run};

type Case = (
    &'static str,
    u32,
    &'static [u64],
    &'static [u64],
    u64,
    &'static str,
);

fn typed_of(alloc: Global, source: &str) -> Result<Typed, Fault>
    ensures { IfOk result (λ typed. FitUnit typed) }
{
    let name = Name::new(alloc, b"t.c")?;
    let bytes = Vector::from_vec(Vec::from_slice(alloc, source.as_bytes()).map_err(
        |_| Fault::Memory,
    )?);
    let texts = [SourceText { name, bytes }];
    if !are_small(&texts) {
        return Err(Fault::Memory);
    }
    typed_of_texts(alloc, &texts)
}

const DEEP: &str = "int f(int n) {
  if (n <= 0) {
    return 0;
  }
  return 1 + f(n - 1);
}
int g(int n) {
  if (f(n) == 2) {
    return 1;
  }
  return 0;
}";

const LOOP: &str = "int f(int n) {
  int i = 0;
  while (i < n) {
    i = i + 1;
  }
  if (i == 3) {
    return 1;
  }
  return 0;
}";

const LOGIC: &str = "int g;
int t(int v) { g = g + 1; return v; }
int both(int x) { int y = x && t(2); return g * 10 + y; }
int either(int x) { int y = x || t(0); return g * 10 + y; }
int choice(int x) { int y = x ? 7 : t(8); return g * 10 + y; }";

const SWITCH: &str = "int f(int n) {
  int s = 0;
  switch (n) {
    case 1: s = s + 1;
    case 2: s = s + 2; break;
    default: s = 9;
  }
  return s;
}";

static CASES: [Case; 34] = [
    (DEEP, 1, &[2], &[], 200, "1"),
    (DEEP, 1, &[62], &[], 200, "0"),
    (DEEP, 1, &[63], &[], 200, "too deep"),
    (LOOP, 0, &[3], &[], 3, "1"),
    (LOOP, 0, &[3], &[], 2, "cut"),
    (
        "int f(int i) { int a[4]; a[i] = 1; return a[0]; }",
        0,
        &[4],
        &[],
        9,
        "trap",
    ),
    (
        "int f(int i) { int a[4]; a[i] = 1; return a[0]; }",
        0,
        &[0],
        &[],
        9,
        "1",
    ),
    (LOGIC, 1, &[0], &[], 9, "0"),
    (LOGIC, 1, &[5], &[], 9, "11"),
    (LOGIC, 2, &[5], &[], 9, "1"),
    (LOGIC, 2, &[0], &[], 9, "10"),
    (LOGIC, 3, &[5], &[], 9, "7"),
    (LOGIC, 3, &[0], &[], 9, "18"),
    (SWITCH, 0, &[1], &[], 9, "3"),
    (SWITCH, 0, &[2], &[], 9, "2"),
    (SWITCH, 0, &[5], &[], 9, "9"),
    // `continue` does the step.
    (
        "int f(int n) { int s = 0; for (int i = 0; i < n; i++) { if (i == 1) continue; s = s + i; } return s; }",
        0,
        &[4],
        &[],
        9,
        "5",
    ),
    // `break` leaves one loop.
    (
        "int f(int n) { int s = 0; for (int i = 0; i < n; i++) { while (1) { break; } s++; } return s; }",
        0,
        &[3],
        &[],
        9,
        "3",
    ),
    // A variable begins anew each time.
    (
        "int f(int n) { int s = 0; while (n > 0) { int x; x = x + 1; s = s + x; n--; } return s; }",
        0,
        &[3],
        &[],
        9,
        "3",
    ),
    // A lent array is the caller's.
    (
        "void set(int a[2]) { a[1] = 7; } int f(int n) { int t[2] = {n}; set(t); return t[0] + t[1]; }",
        1,
        &[5],
        &[],
        9,
        "12",
    ),
    // The index of `+=` is evaluated once.
    (
        "int g; int k(void) { g = g + 1; return 0; } int f(int n) { int t[1] = {n}; t[k()] += 2; return t[0] * 10 + g; }",
        1,
        &[3],
        &[],
        9,
        "51",
    ),
    // A call takes a turn.
    (
        "int h(void) { return 1; } int f(int n) { return h(); }",
        1,
        &[0],
        &[],
        1,
        "1",
    ),
    (
        "int h(void) { return 1; } int f(int n) { return h(); }",
        1,
        &[0],
        &[],
        0,
        "cut",
    ),
    // Input functions give the answers in turn, and 0 behind the last.
    (
        "int in(void); int f(int n) { return in() * 10 + in(); }",
        0,
        &[0],
        &[4, 5],
        0,
        "45",
    ),
    (
        "int in(void); int f(int n) { return in() * 10 + in(); }",
        0,
        &[0],
        &[4],
        0,
        "40",
    ),
    (
        "int f(int n) { assert(n); return 1; }",
        0,
        &[0],
        &[],
        0,
        "trap",
    ),
    (
        "int f(int n) { assume(n); return 1; }",
        0,
        &[0],
        &[],
        0,
        "blocked",
    ),
    ("int f(int n) { return 6 / n; }", 0, &[0], &[], 0, "trap"),
    ("int f(int n) { return 6 / n; }", 0, &[4], &[], 0, "1"),
    (
        "int f(int n) { int i = 0; do { i = i + 2; if (i == 4) continue; } while (i < n); return i; }",
        0,
        &[5],
        &[],
        9,
        "6",
    ),
    (
        "int f(int n) { int i = 0; do i = i + 2; while (i < n); return i; }",
        0,
        &[5],
        &[],
        2,
        "cut",
    ),
    (
        "int f(int n) { if (n == 1) return 4; else if (n == 2) return 5; else return 6; }",
        0,
        &[2],
        &[],
        0,
        "5",
    ),
    (
        "void f(int n) { if (n) return; n = 3; }",
        0,
        &[2],
        &[],
        0,
        "none",
    ),
    ("int f(int n) { n = n + 1; }", 0, &[2], &[], 0, "0"),
];

fn end_text(alloc: Global, end: TreeEnd) -> Result<String, Fail> {
    let mut text = String::new(alloc);
    match end {
        TreeEnd::Returned { value: Some(value) } => write!(text, "{value}")?,
        TreeEnd::Returned { value: None } => text.push_str("none")?,
        TreeEnd::Trapped(_) => text.push_str("trap")?,
        TreeEnd::Blocked => text.push_str("blocked")?,
        TreeEnd::TooDeep => text.push_str("too deep")?,
        TreeEnd::OutOfTurns => text.push_str("cut")?,
    }
    Ok(text)
}

fn run_of(alloc: Global, case: &Case) -> Result<String, Fail> {
    let (source, entry, words, answers, turns, _end) = *case;
    let typed = typed_of(alloc, source)?;
    let input = Input {
        words: Vector::from_vec(Vec::from_slice(alloc, words)?),
        answers: Vector::from_vec(Vec::from_slice(alloc, answers)?),
    };
    let end = tree_run(&typed, entry, &input, turns)?;
    end_text(alloc, end)
}

#[test]
fn programs(rt: HostRuntime) -> Result<(), Fail> {
    for case in &CASES {
        let text = run_of(rt.alloc(), case)?;
        assert_eq!(rt; text.as_str(), case.5);
    }
    Ok(())
}
