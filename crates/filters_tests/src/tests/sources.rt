// Sources, and what filters keep of their automata.
use super::Case;

// `sum` has the nodes 0 (entry), 1 (exit), 4 (the second return), 5 (the first return) and 6 (behind the call), and these
// edges: e0, e1 the guards; e2 the first return; e3 the call, e4 its return edge, e5 the second return. `pick` has the
// nodes 2 (entry), 3 (exit), 7 and 8 (the second and third statement), 9 (the label), 10, 11, 12 (the loop's head, body
// and end), 13, 14 (the groups), 15 (behind the switch's value), 16 (between the two labels), 17 (behind the answer) and 18
// (behind the call), and these edges: e6 i = 0; e7 the label; e8 into the loop; e9, e10 its guards; e11 the switch's value;
// e12, e13 the guards of `case 1`; e14, e15 those of `case 2`; e16 the assignment to `total`; e17 the answer; e18 the
// assignment to `i`; e19 back; e20 the call, e21 its return edge, e22 the return.
pub static LOOPS: [(&str, &str); 2] = [
    (
        "one.c",
        "int total;
int in(void);
int sum(int n) {
  if (n == 0) return 0;
  return n + sum(n - 1);
}
",
    ),
    (
        "two.c",
        "int pick(int k) {
  int i = 0;
  again: while (i < k) {
    switch (i) {
      case 1: case 2: total = total + i;
      default: i = i + in();
    }
  }
  return sum(total);
}
",
    ),
];

pub static KEPT_OF_LOOPS: [Case; 25] = [
    ("cover @FILE(one.c)", &[0, 1, 4, 5, 6], &[0, 1, 2, 3, 4, 5]),
    (
        "cover @FILE(two.c)",
        &[0, 1, 2, 3, 7, 8, 9, 10, 11, 12, 13, 14, 15, 16, 17, 18],
        &[
            6, 7, 8, 9, 10, 11, 12, 13, 14, 15, 16, 17, 18, 19, 20, 21, 22,
        ],
    ),
    (
        "cover @LINE(5)",
        &[0, 1, 4, 6, 13, 14, 15, 16],
        &[3, 4, 5, 12, 13, 14, 15, 16],
    ),
    ("cover @FUNC(sum)", &[0, 1, 4, 5, 6], &[0, 1, 2, 3, 4, 5]),
    (
        "cover @FUNC(pick)",
        &[2, 3, 7, 8, 9, 10, 11, 12, 13, 14, 15, 16, 17, 18],
        &[
            6, 7, 8, 9, 10, 11, 12, 13, 14, 15, 16, 17, 18, 19, 20, 21, 22,
        ],
    ),
    ("cover @LABEL(again)", &[7, 9], &[7]),
    ("cover @CALL(sum)", &[0, 4, 8], &[3, 20]),
    ("cover @CALL(in)", &[14, 17], &[17]),
    ("cover @ENTRY(sum)", &[0, 4, 5], &[0, 1]),
    ("cover @EXIT(sum)", &[1, 5, 6], &[2, 5]),
    ("cover @EXIT(pick)", &[3, 18], &[22]),
    (
        "cover @BASICBLOCKENTRY",
        &[0, 1, 2, 3, 4, 5, 6, 7, 8, 10, 11, 13, 14, 15, 16, 17, 18],
        &[0, 1, 2, 3, 4, 5, 6, 9, 10, 11, 14, 15, 16, 17, 20, 21, 22],
    ),
    (
        "cover @CONDITIONEDGE",
        &[0, 4, 5, 8, 10, 11, 13, 14, 15, 16],
        &[0, 1, 9, 10, 12, 13, 14, 15],
    ),
    (
        "cover @CONDITIONGRAPH",
        &[0, 4, 5, 8, 10, 11, 13, 14, 15, 16],
        &[0, 1, 9, 10, 12, 13, 14, 15],
    ),
    (
        "cover @DECISIONEDGE",
        &[0, 4, 5, 8, 10, 11, 13, 14, 15, 16],
        &[0, 1, 9, 10, 12, 14, 15],
    ),
    (
        "cover @STMTTYPE(WHILE,LABEL)",
        &[7, 8, 9, 10, 11, 12],
        &[7, 8, 9, 10, 19],
    ),
    (
        "cover @STMTTYPE(SWITCH)",
        &[11, 13, 14, 15, 16],
        &[11, 12, 13, 14, 15],
    ),
    ("cover @DEF(i)", &[2, 7, 12, 17], &[6, 18]),
    ("cover @DEF(total)", &[13, 14], &[16]),
    ("cover @USE(total)", &[0, 8, 13, 14], &[16, 20]),
    (
        "cover @USE(i)",
        &[8, 10, 11, 12, 13, 14, 15, 17],
        &[9, 10, 11, 16, 18],
    ),
    ("cover @USE(n)", &[0, 1, 4, 5, 6], &[0, 1, 3, 5]),
    (
        "cover COMPOSE(@BASICBLOCKENTRY,@FUNC(sum))",
        &[0, 1, 4, 5, 6],
        &[0, 1, 2, 3, 4, 5],
    ),
    (
        "cover INTERSECT(@FILE(two.c),@LINE(5))",
        &[0, 1, 13, 14, 15, 16],
        &[12, 13, 14, 15, 16],
    ),
    (
        "cover SETMINUS(@CONDITIONGRAPH,@DECISIONEDGE)",
        &[15, 16],
        &[13],
    ),
];

// `first` has e0, the assignment from 0 to 4, and e1, the return from 4 to 1. `use` has e2, which clears b, from 2 to 6; e3
// and e4, its elements, from 6 to 7 and to 5; e5, the call from 5 to 0; e6, its return edge, from 1 to 8; e7, the return.
pub static ARRAYS: [(&str, &str); 1] = [(
    "arrays.c",
    "int first(int a[2]) { a[1] = 7; return a[0]; }
int use(void) {
  int b[2] = {1, 2};
  return first(b);
}
",
)];

pub static KEPT_OF_ARRAYS: [Case; 5] = [
    ("cover @DEF(a)", &[0, 4], &[0]),
    ("cover @USE(a)", &[1, 4], &[1]),
    ("cover @DEF(b)", &[2, 5, 6, 7], &[2, 3, 4]),
    ("cover @USE(b)", &[0, 5], &[5]),
    ("cover @CALL(first)", &[0, 5], &[5]),
];
