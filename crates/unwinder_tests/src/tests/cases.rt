// Small programs, and what is listed of their runs. Nodes and edges have the numbers that docs/GRAPH.md gives them. A run
// reads as the node of its start, and then for each step the edge and the node to which it leads, with a sign for each
// predicate and a mark where the run ends in a way that counts.
use c_meaning::Ends;
use unwinder_reach::reached::Bounds;

// The patterns of an input's words and then of its answers, and the entries that hold for it.
type Run = (&'static [u64], &'static str);

/// A program, how it is unwound, the widths of its words, how many pairs and entries there are, and runs.
pub(crate) struct Case {
    pub(crate) source: &'static str,
    pub(crate) query: &'static str,
    pub(crate) bounds: Bounds,
    pub(crate) ends: Ends,
    pub(crate) widths: &'static [u32],
    pub(crate) counts: (u32, usize),
    pub(crate) runs: &'static [Run],
}

// e0, e1: the guards, true from 0 to 3 and false from 0 to 2; e2: return 1, from 3 to 1; e3: return 0, from 2 to 1.
const BRANCH: &str = "int f(int x) { if (x > 10) { return 1; } return 0; }";

// e0: the array, from 0 to 2; e1: the element, from 2 to 3; e2: return, from 3 to 1.
const ELEMENT: &str = "int f(int i) { int a[4]; a[i] = 1; return a[0]; }";

// e0: return, from 0 to 1.
const QUOTIENT: &str = "int f(int a, int b) { return a / b; }";

// e0: the assumption, from 0 to 2; e1: the assertion, from 2 to 3; e2: return, from 3 to 1.
const CHECKS: &str = "int f(int x) { assume(x > 0); assert(x != 5); return x; }";

// e0: i = 0, from 0 to 2; e1 enters the loop, from 2 to 4; e2, e3: the guards, true from 4 to 5 and false from 4 to 3; e4:
// the sum, from 5 to 6; e5 goes back, from 6 to 4; e6: return, from 3 to 1.
pub(crate) const LOOP: &str = "int f(int n) { int i = 0; while (i < n) { i = i + 1; } return i; }";

// e0: c = 0, from 0 to 2; e1: i = 0, from 2 to 4; e2 enters the outer loop, from 4 to 5; e3, e4: its guards, true from 5 to
// 6 and false from 5 to 3; e5: j = 0, from 6 to 8; e6 enters the inner loop, from 8 to 9; e7, e8: its guards, true from 9 to
// 10 and false from 9 to 7; e9: the sum, from 10 to 11; e10: j++, from 11 to 12; e11 goes back, from 12 to 9; e12: i++, from
// 7 to 13; e13 goes back, from 13 to 5; e14, e15: the guards of the test, true from 3 to 15 and false from 3 to 14; e16:
// return 1, from 15 to 1; e17: return 0, from 14 to 1.
pub(crate) const NESTED: &str = "int f(int n) {
  int c = 0;
  for (int i = 0; i < 2; i++) {
    for (int j = 0; j < n; j++) {
      c = c + 1;
    }
  }
  if (c == 6) {
    return 1;
  }
  return 0;
}";

// e0: g's return, from 0 to 1; e1: y = 0, from 2 to 4; e2, e3: the guards, true from 4 to 6 and false from 4 to 5; e4: the
// call, from 6 to 0; e5: its return edge, from 1 to 7; e6: y is set, from 7 to 5; e7: return, from 5 to 3.
const CALL: &str = "int g(int v) { return v; }
int f(int x) {
  int y = 0;
  if (x > 3) {
    y = g(x);
  }
  return y;
}";

// e0, e1: the guards, true from 0 to 3 and false from 0 to 2; e2: the call, from 3 to 0; e3: its return edge, from 1 to 4;
// e4: return, from 4 to 1; e5: return 0, from 2 to 1.
const RECURSION: &str = "int f(int n) { if (n) { return f(n - 1); } return 0; }";

// e0: the first answer, from 0 to 3; e1: a is set, from 3 to 2; e2: the second answer, from 2 to 5; e3: b is set, from 5 to
// 4; e4, e5: the guards, true from 4 to 7 and false from 4 to 6; e6: return 1, from 7 to 1; e7: return 0, from 6 to 1.
const ANSWERS: &str =
    "int in(void); int f(void) { int a = in(); int b = in(); if (b > a) { return 1; } return 0; }";

pub(crate) static CASES: [Case; 19] = [
    // The third word is -1.
    Case {
        source: BRANCH,
        query: "cover ID",
        bounds: Bounds {
            turns: 4,
            frames: 8,
            answers: 16,
        },
        ends: Ends::Returned,
        widths: &[32],
        counts: (4, 5),
        runs: &[
            (&[5], "0 1>2 3>1!"),
            (&[11], "0 0>3 2>1!"),
            (&[0xffff_ffff], "0 1>2 3>1!"),
        ],
    },
    Case {
        source: BRANCH,
        query: "cover {x > 3}+{x == 11}",
        bounds: Bounds {
            turns: 0,
            frames: 1,
            answers: 0,
        },
        ends: Ends::Returned,
        widths: &[32],
        counts: (4, 5),
        runs: &[
            (&[3], "0-- 1>2-- 3>1--!"),
            (&[5], "0+- 1>2+- 3>1+-!"),
            (&[11], "0++ 0>3++ 2>1++!"),
        ],
    },
    Case {
        source: ELEMENT,
        query: "cover ID",
        bounds: Bounds {
            turns: 4,
            frames: 8,
            answers: 16,
        },
        ends: Ends::Returned,
        widths: &[32],
        counts: (4, 4),
        runs: &[
            (&[0], "0 0>2 1>3 2>1!"),
            (&[3], "0 0>2 1>3 2>1!"),
            (&[4], "0 0>2"),
            (&[0xffff_ffff], "0 0>2"),
        ],
    },
    // The array is seen behind its declaration and before the exit, and an index outside of it makes the predicate no.
    Case {
        source: ELEMENT,
        query: "cover {a[i] == 0}",
        bounds: Bounds {
            turns: 0,
            frames: 1,
            answers: 0,
        },
        ends: Ends::Trapped,
        widths: &[32],
        counts: (4, 4),
        runs: &[(&[3], "0- 0>2+ 1>3- 2>1-!"), (&[4], "0- 0>2-!")],
    },
    Case {
        source: QUOTIENT,
        query: "cover ID",
        bounds: Bounds {
            turns: 0,
            frames: 1,
            answers: 0,
        },
        ends: Ends::Returned,
        widths: &[32, 32],
        counts: (2, 2),
        runs: &[(&[7, 1], "0 0>1!"), (&[7, 0], "0")],
    },
    // The least int has no quotient by -1.
    Case {
        source: QUOTIENT,
        query: "cover ID",
        bounds: Bounds {
            turns: 0,
            frames: 1,
            answers: 0,
        },
        ends: Ends::Trapped,
        widths: &[32, 32],
        counts: (2, 2),
        runs: &[
            (&[7, 1], "0 0>1!"),
            (&[7, 0], "0!"),
            (&[0x8000_0000, 0xffff_ffff], "0!"),
            (&[0xffff_ffff, 0xffff_ffff], "0 0>1!"),
        ],
    },
    Case {
        source: QUOTIENT,
        query: "cover ID",
        bounds: Bounds {
            turns: 0,
            frames: 1,
            answers: 0,
        },
        ends: Ends::Any,
        widths: &[32, 32],
        counts: (2, 2),
        runs: &[(&[7, 1], "0 0>1!"), (&[7, 0], "0!")],
    },
    Case {
        source: CHECKS,
        query: "cover ID",
        bounds: Bounds {
            turns: 0,
            frames: 1,
            answers: 0,
        },
        ends: Ends::Returned,
        widths: &[32],
        counts: (4, 4),
        runs: &[(&[0], "0"), (&[5], "0 0>2"), (&[6], "0 0>2 1>3 2>1!")],
    },
    Case {
        source: CHECKS,
        query: "cover ID",
        bounds: Bounds {
            turns: 0,
            frames: 1,
            answers: 0,
        },
        ends: Ends::Trapped,
        widths: &[32],
        counts: (4, 4),
        runs: &[(&[0], "0"), (&[5], "0 0>2!"), (&[6], "0 0>2 1>3 2>1!")],
    },
    Case {
        source: CHECKS,
        query: "cover ID",
        bounds: Bounds {
            turns: 0,
            frames: 1,
            answers: 0,
        },
        ends: Ends::Any,
        widths: &[32],
        counts: (4, 4),
        runs: &[(&[0], "0!"), (&[5], "0 0>2!"), (&[6], "0 0>2 1>3 2>1!")],
    },
    Case {
        source: LOOP,
        query: "cover ID",
        bounds: Bounds {
            turns: 0,
            frames: 1,
            answers: 0,
        },
        ends: Ends::Any,
        widths: &[32],
        counts: (7, 7),
        runs: &[(&[0], "0 0>2 1>4 3>3 6>1!"), (&[1], "0 0>2 1>4 2>5 4>6")],
    },
    // i is seen behind its declaration and before the exit.
    Case {
        source: LOOP,
        query: "cover {i > 0}+{n > 1}",
        bounds: Bounds {
            turns: 1,
            frames: 1,
            answers: 0,
        },
        ends: Ends::Returned,
        widths: &[32],
        counts: (10, 11),
        runs: &[
            (&[0], "0-- 0>2-- 1>4-- 3>3-- 6>1--!"),
            (&[1], "0-- 0>2-- 1>4-- 2>5-- 4>6+- 5>4+- 3>3+- 6>1--!"),
            (&[2], "0-+ 0>2-+ 1>4-+ 2>5-+ 4>6++ 5>4++ 2>5++ 4>6++"),
        ],
    },
    Case {
        source: LOOP,
        query: "cover ID",
        bounds: Bounds {
            turns: 2,
            frames: 1,
            answers: 0,
        },
        ends: Ends::Any,
        widths: &[32],
        counts: (13, 15),
        runs: &[
            (&[1], "0 0>2 1>4 2>5 4>6 5>4 3>3 6>1!"),
            (&[2], "0 0>2 1>4 2>5 4>6 5>4 2>5 4>6 5>4 3>3 6>1!"),
            (&[3], "0 0>2 1>4 2>5 4>6 5>4 2>5 4>6 5>4 2>5 4>6"),
            (&[0x7fff_ffff], "0 0>2 1>4 2>5 4>6 5>4 2>5 4>6 5>4 2>5 4>6"),
        ],
    },
    // The inner counter starts anew at each turn of the outer loop, whose second turn is its last. Seven pairs lie
    // outside of the loops, five in each turn of the outer one and once more, and in each of these four in each turn of
    // the inner one and once more. Each pair has one step but those with two guards, and those whose turns are used up.
    Case {
        source: NESTED,
        query: "cover ID",
        bounds: Bounds {
            turns: 1,
            frames: 1,
            answers: 0,
        },
        ends: Ends::Returned,
        widths: &[32],
        counts: (33, 37),
        runs: &[
            (
                &[0],
                "0 0>2 1>4 2>5 3>6 5>8 6>9 8>7 12>13 13>5 3>6 5>8 6>9 8>7 12>13",
            ),
            (
                &[1],
                "0 0>2 1>4 2>5 3>6 5>8 6>9 7>10 9>11 10>12 11>9 8>7 12>13 13>5 3>6 5>8 6>9 7>10 9>11 10>12 11>9 8>7 12>13",
            ),
            (
                &[2],
                "0 0>2 1>4 2>5 3>6 5>8 6>9 7>10 9>11 10>12 11>9 7>10 9>11 10>12",
            ),
        ],
    },
    // y is seen in f alone, and v in g.
    Case {
        source: CALL,
        query: "cover {y == 9}+{v == 9}",
        bounds: Bounds {
            turns: 0,
            frames: 2,
            answers: 0,
        },
        ends: Ends::Returned,
        widths: &[32],
        counts: (8, 9),
        runs: &[
            (&[9], "2-- 1>4-- 2>6-- 4>0-+ 0>1-+ 5>7-- 6>5+- 7>3--!"),
            (&[2], "2-- 1>4-- 3>5-- 7>3--!"),
        ],
    },
    Case {
        source: CALL,
        query: "cover ID",
        bounds: Bounds {
            turns: 0,
            frames: 1,
            answers: 0,
        },
        ends: Ends::Any,
        widths: &[32],
        counts: (5, 5),
        runs: &[(&[9], "2 1>4 2>6"), (&[2], "2 1>4 3>5 7>3!")],
    },
    Case {
        source: RECURSION,
        query: "cover {n > 0}",
        bounds: Bounds {
            turns: 0,
            frames: 2,
            answers: 0,
        },
        ends: Ends::Any,
        widths: &[32],
        counts: (9, 10),
        runs: &[
            (&[0], "0- 1>2- 5>1-!"),
            (&[1], "0+ 0>3+ 2>0- 1>2- 5>1- 3>4+ 4>1+!"),
            (&[2], "0+ 0>3+ 2>0+ 0>3+"),
        ],
    },
    Case {
        source: ANSWERS,
        query: "cover ID",
        bounds: Bounds {
            turns: 0,
            frames: 1,
            answers: 1,
        },
        ends: Ends::Any,
        widths: &[],
        counts: (3, 3),
        runs: &[(&[4, 5], "0 0>3 1>2")],
    },
    // An answer is taken as an int, and past the last it is 0.
    Case {
        source: ANSWERS,
        query: "cover {a == 4}",
        bounds: Bounds {
            turns: 0,
            frames: 1,
            answers: 2,
        },
        ends: Ends::Returned,
        widths: &[],
        counts: (8, 9),
        runs: &[
            (&[4, 5], "0- 0>3- 1>2+ 2>5+ 3>4+ 4>7+ 6>1-!"),
            (
                &[4, 0xffff_ffff_0000_0003],
                "0- 0>3- 1>2+ 2>5+ 3>4+ 5>6+ 7>1-!",
            ),
            (&[0xffff_ffff], "0- 0>3- 1>2- 2>5- 3>4- 4>7- 6>1-!"),
        ],
    },
];
