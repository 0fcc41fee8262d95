// Statements: a source with the nodes and edges that it has, worked by hand from the table of docs/GRAPH.md.
use super::Case;

pub static STATEMENTS: [Case; 26] = [
    // `if` with an arm more and an `else`, and without.
    (
        "void f(int x) {
  if (x > 1)
    x = 1;
  else if (x > 2)
    x = 2;
  else
    x = 3;
}",
        "0:1s0d0 0:8s0d0 0:3s0d0 0:4s0d0 0:5s0d0 0:7s0d0 | 0>2 true@2?!, 0>3 false@2?!, 2>1 assign@3, 3>4 true@4?!, 3>5 false@4?!, 4>1 assign@5, 5>1 assign@7, ",
    ),
    (
        "void f(int x) {
  if (x > 1)
    x = 1;
  else if (x > 2)
    x = 2;
}",
        "0:1s0d0 0:6s0d0 0:3s0d0 0:4s0d0 0:5s0d0 | 0>2 true@2?!, 0>3 false@2?!, 2>1 assign@3, 3>4 true@4?!, 3>1 false@4?!, 4>1 assign@5, ",
    ),
    // `for` with each of its parts or not.
    (
        "void f(int n) {
  for (
    ;
    ;
    )
    n = 7;
}",
        "0:1s0d0 0:7s0d0 0:2s0d1 0:2s0d1 0:2s0d1 | 0>2 skip@2+, 2>3 skip@2, 3>4 assign@6, 4>2 skip@2-, ",
    ),
    (
        "void f(int n) {
  for (
    ;
    ;
    n++)
    n = 7;
}",
        "0:1s0d0 0:7s0d0 0:2s0d1 0:2s0d1 0:2s0d1 0:2s0d1 | 0>2 skip@2+, 2>3 skip@2, 3>4 assign@6, 4>5 assign@5, 5>2 skip@2-, ",
    ),
    (
        "void f(int n) {
  for (
    ;
    n < 9;
    )
    n = 7;
}",
        "0:1s0d0 0:7s0d0 0:2s0d1 0:2s0d1 0:2s0d1 | 0>2 skip@2+, 2>3 true@4?!, 2>1 false@4?!, 3>4 assign@6, 4>2 skip@2-, ",
    ),
    (
        "void f(int n) {
  for (
    ;
    n < 9;
    n++)
    n = 7;
}",
        "0:1s0d0 0:7s0d0 0:2s0d1 0:2s0d1 0:2s0d1 0:2s0d1 | 0>2 skip@2+, 2>3 true@4?!, 2>1 false@4?!, 3>4 assign@6, 4>5 assign@5, 5>2 skip@2-, ",
    ),
    (
        "void f(int n) {
  for (
    n = 0;
    ;
    )
    n = 7;
}",
        "0:1s0d0 0:7s0d0 0:2s0d0 0:2s0d1 0:2s0d1 0:2s0d1 | 0>2 assign@3, 2>3 skip@2+, 3>4 skip@2, 4>5 assign@6, 5>3 skip@2-, ",
    ),
    (
        "void f(int n) {
  for (
    int i = 0;
    ;
    i++)
    n = 7;
}",
        "0:1s0d0 0:7s0d0 0:2s1d0 0:2s1d1 0:2s1d1 0:2s1d1 0:2s1d1 | 0>2 assign@3, 2>3 skip@2+, 3>4 skip@2, 4>5 assign@6, 5>6 assign@5, 6>3 skip@2-, ",
    ),
    (
        "void f(int n) {
  for (
    int i = 0, j = 1;
    i < j;
    )
    n = 7;
}",
        "0:1s0d0 0:7s0d0 0:2s1d0 0:3s2d0 0:2s1d1 0:2s1d1 0:2s1d1 | 0>3 assign@3, 3>2 assign@3, 2>4 skip@2+, 4>5 true@4?!, 4>1 false@4?!, 5>6 assign@6, 6>4 skip@2-, ",
    ),
    (
        "void f(int n) {
  for (
    int i = 0;
    i < n;
    i++)
    n = 7;
}",
        "0:1s0d0 0:7s0d0 0:2s1d0 0:2s1d1 0:2s1d1 0:2s1d1 0:2s1d1 | 0>2 assign@3, 2>3 skip@2+, 3>4 true@4?!, 3>1 false@4?!, 4>5 assign@6, 5>6 assign@5, 6>3 skip@2-, ",
    ),
    // `continue` in each loop, and `break` of a loop and of a `switch` in it.
    (
        "void f(int n) {
  while (n) {
    if (n > 5)
      continue;
    n = 0;
  }
}",
        "0:1s0d0 0:7s0d0 0:2s0d1 0:2s0d1 0:2s0d1 0:5s0d1 0:4s0d1 | 0>2 skip@2+, 2>3 true@2?!, 2>1 false@2?!, 3>6 true@3?!, 3>5 false@3?!, 6>4 skip@4, 5>4 assign@5, 4>2 skip@2-, ",
    ),
    (
        "void f(int n) {
  do {
    if (n > 5)
      continue;
    n = 0;
  } while (n);
}",
        "0:1s0d0 0:7s0d0 0:2s0d1 0:2s0d1 0:2s0d1 0:5s0d1 0:4s0d1 | 0>2 skip@2+, 2>6 true@3?!, 2>5 false@3?!, 6>3 skip@4, 5>3 assign@5, 3>4 true@6?!, 3>1 false@6?!, 4>2 skip@2-, ",
    ),
    (
        "void f(int n) {
  for (; n; n--) {
    if (n > 5)
      continue;
    n = 0;
  }
}",
        "0:1s0d0 0:7s0d0 0:2s0d1 0:2s0d1 0:2s0d1 0:5s0d1 0:4s0d1 0:2s0d1 | 0>2 skip@2+, 2>3 true@2?!, 2>1 false@2?!, 3>6 true@3?!, 3>5 false@3?!, 6>4 skip@4, 5>4 assign@5, 4>7 assign@2, 7>2 skip@2-, ",
    ),
    (
        "void f(int n) {
  while (n) {
    switch (n) {
    case 1:
      break;
    default:
      continue;
    }
    n = 2;
    break;
  }
}",
        "0:1s0d0 0:12s0d0 0:2s0d1 0:2s0d1 0:2s0d1 0:9s0d1 0:3s0d1 0:3s0d1 0:3s0d1 0:10s0d1 | 0>2 skip@2+, 2>3 true@2?!, 2>1 false@2?!, 3>8 assign@3, 8>6 true@4?!, 8>7 false@4?!, 6>5 skip@5, 7>4 skip@7, 5>9 assign@9, 9>1 skip@10, 4>2 skip@2-, ",
    ),
    // A loop in a loop.
    (
        "void f(int n) {
  while (n)
    do
      n--;
    while (n);
}",
        "0:1s0d0 0:6s0d0 0:2s0d1 0:2s0d1 0:2s0d1 0:3s0d2 0:3s0d2 0:3s0d2 | 0>2 skip@2+, 2>3 true@2?!, 2>1 false@2?!, 3>5 skip@3+, 5>6 assign@4, 6>7 true@5?!, 6>4 false@5?!, 7>5 skip@3-, 4>2 skip@2-, ",
    ),
    // `switch`: the default first, and a fall into the next group; alone; no group; an empty group of two labels; a name in a
    // group.
    (
        "void f(int x) {
  switch (x) {
  default:
    x = 1;
  case 2:
    x = 2;
    x = 3;
  case 4:
  case 5:
    break;
  }
}",
        "0:1s0d0 0:12s0d0 0:2s0d0 0:2s0d0 0:2s0d0 0:2s0d0 0:2s0d0 0:2s0d0 0:7s0d0 | 0>5 assign@2, 5>3 true@5?!, 5>6 false@5?, 6>4 true@8?!, 6>7 false@8?, 7>4 true@9?!, 7>2 false@9?!, 2>3 assign@4, 3>8 assign@6, 8>4 assign@7, 4>1 skip@10, ",
    ),
    (
        "void f(int x) {
  switch (x) {
  default:
    x = 1;
  }
}",
        "0:1s0d0 0:6s0d0 0:2s0d0 0:2s0d0 | 0>3 assign@2, 3>2 skip@2, 2>1 assign@4, ",
    ),
    (
        "void f(int x) {
  switch (x) {
  }
}",
        "0:1s0d0 0:4s0d0 0:2s0d0 | 0>2 assign@2, 2>1 skip@2, ",
    ),
    (
        "void f(int x) {
  switch (x) {
  case 1:
  case 2:
  }
}",
        "0:1s0d0 0:6s0d0 0:2s0d0 0:2s0d0 0:2s0d0 | 0>3 assign@2, 3>2 true@3?!, 3>4 false@3?, 4>2 true@4?!, 4>1 false@4?!, 2>1 skip@2, ",
    ),
    (
        "void f(int x) {
  switch (x) {
  case 1:
    int y = x;
    x = y;
  case 2:
    x = 0;
    x = 1;
  }
}",
        "0:1s0d0 0:10s0d0 0:2s0d0 0:2s0d0 0:2s0d0 0:2s0d0 0:5s1d0 0:8s0d0 | 0>4 assign@2, 4>2 true@3?!, 4>5 false@3?, 5>3 true@6?!, 5>1 false@6?!, 2>6 assign@4, 6>3 assign@5, 3>7 assign@7, 7>1 assign@8, ",
    ),
    // A label before a loop.
    (
        "void f(int n) {
  again:
  while (n)
    n = 0;
}",
        "0:1s0d0 0:5s0d0 0:2s0d0 0:3s0d1 0:3s0d1 0:3s0d1 | 0>2 skip@2, 2>3 skip@3+, 3>4 true@3?!, 3>1 false@3?!, 4>5 assign@4, 5>3 skip@3-, ",
    ),
    // `assert`, `assume`, an empty block, a local without a value, `return`, and what no run comes to.
    (
        "void f(int x) {
  assert(x > 0);
  assume(x < 9);
  {}
  int y;
  return;
  x = 1;
}",
        "0:1s0d0 0:8s0d0 0:3s0d0 0:4s0d0 0:5s0d0 0:6s1d0 0:7s1d0 | 0>2 assert@2, 2>3 assume@3, 3>4 skip@4, 4>5 assign@5, 5>1 skip@6, 6>1 assign@7, ",
    ),
    // A block in a block, with scopes of their own, and a declaration of two names.
    (
        "int g;
void f(int x) {
  int y = x;
  {
    int x = y;
    g = x;
  }
  g = y;
}",
        "0:2s0d0 0:9s0d0 0:4s1d0 0:8s1d0 0:6s2d0 | 0>2 assign@3, 2>4 assign@5, 4>3 assign@6, 3>1 assign@8, ",
    ),
    (
        "void f(void) {
  int x = 1,
      y = x;
  y = 2;
}",
        "0:1s0d0 0:5s0d0 0:2s1d0 0:4s2d0 | 0>2 assign@2, 2>3 assign@2, 3>1 assign@4, ",
    ),
    // Local arrays without and with a list.
    (
        "void f(void) {
  int t[3];
  t[0] = 1;
}",
        "0:1s0d0 0:4s0d0 0:3s1d0 | 0>2 clear@2, 2>1 assign@3, ",
    ),
    (
        "int in(void);
void f(void) {
  int t[3] = {7, in()};
  ;
}",
        "0:2s0d0 0:5s0d0 0:4s1d0 0:3s0d0 0:3s0d0 0:3s0d0 | 0>3 clear@3, 3>4 assign@3, 4>5 answer@3, 5>2 assign@3, 2>1 skip@4, ",
    ),
];
