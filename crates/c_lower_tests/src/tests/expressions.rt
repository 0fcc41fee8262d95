// Conditions, values and calls: a source with the nodes and edges that it has, worked by hand from docs/GRAPH.md.
use super::Case;

pub static EXPRESSIONS: [Case; 14] = [
    // `&&` as a value; `||` within `!`; both within a condition; a conversion, which isn't split.
    (
        "void f(int a, int b) {
  a = a
    && b;
}",
        "0:1s0d0 0:4s0d0 0:2s0d0 0:2s0d0 0:2s0d0 0:3s0d0 | 0>5 true@2?, 0>3 false@2?!, 5>2 true@3?!, 5>3 false@3?!, 2>4 assign@2, 3>4 assign@2, 4>1 assign@2, ",
    ),
    (
        "void f(int a, int b) {
  if (!(a ||
        b))
    a = 1;
}",
        "0:1s0d0 0:5s0d0 0:4s0d0 0:3s0d0 | 0>1 true@2?!, 0>3 false@2?, 3>1 true@3?!, 3>2 false@3?!, 2>1 assign@4, ",
    ),
    (
        "void f(int a, int b, int c) {
  while (!(a && b) || c)
    ;
}",
        "0:1s0d0 0:4s0d0 0:2s0d1 0:2s0d1 0:2s0d1 0:2s0d1 0:2s0d1 | 0>2 skip@2+, 2>6 true@2?, 2>3 false@2?!, 6>5 true@2?, 6>3 false@2?!, 5>3 true@2?!, 5>1 false@2?!, 3>4 skip@3, 4>2 skip@2-, ",
    ),
    (
        "void f(int a, int b) {
  if ((int)(a && b))
    a = 1;
}",
        "0:1s0d0 0:4s0d0 0:3s0d0 0:2s0d0 0:2s0d0 0:2s0d0 0:2s0d0 | 0>6 true@2?, 0>4 false@2?!, 6>3 true@2?!, 6>4 false@2?!, 3>5 assign@2?, 4>5 assign@2?, 5>2 true@2?!, 5>1 false@2?!, 2>1 assign@3, ",
    ),
    // `?:` in an index, in a condition, and with a call in a part.
    (
        "int t[4];
void f(int i) {
  t[i ? 1 : 2] = i;
}",
        "0:2s0d0 0:4s0d0 0:3s0d0 0:3s0d0 0:3s0d0 | 0>2 true@3?!, 0>3 false@3?!, 2>4 assign@3, 3>4 assign@3, 4>1 assign@3, ",
    ),
    (
        "void f(int a, int b) {
  if (a ? b : 2)
    a = 1;
}",
        "0:1s0d0 0:4s0d0 0:3s0d0 0:2s0d0 0:2s0d0 0:2s0d0 | 0>3 true@2?!, 0>4 false@2?!, 3>5 assign@2?, 4>5 assign@2?, 5>2 true@2?!, 5>1 false@2?!, 2>1 assign@3, ",
    ),
    (
        "int in(void);
int f(int a) {
  return a ? in() : a;
}",
        "0:2s0d0 0:4s0d0 0:3s0d0 0:3s0d0 0:3s0d0 0:3s0d0 | 0>2 true@3?!, 0>3 false@3?!, 2>5 answer@3, 5>4 assign@3, 3>4 assign@3, 4>1 assign@3, ",
    ),
    // Calls: in an argument, in a condition, in a first value, in the value of a `switch`, and of input functions.
    (
        "int g(int v) { return v; }
int f(int x) {
  return g(g(x));
}",
        "0:1s0d0 0:1s0d0 1:2s1d0 1:4s1d0 1:3s1d0 1:3s1d0 | 0>1 assign@1, 2>0 call@3, 1>5 return@3, 5>0 call@3, 1>4 return@3, 4>3 assign@3, ",
    ),
    (
        "int g(int v) { return v; }
void f(int x) {
  if (x &&
      g(x))
    x = 0;
}",
        "0:1s0d0 0:1s0d0 1:2s1d0 1:6s1d0 1:5s1d0 1:4s1d0 1:3s1d0 | 0>1 assign@1, 2>5 true@3?, 2>3 false@3?!, 5>0 call@3?, 1>6 return@3?, 6>4 true@4?!, 6>3 false@4?!, 4>3 assign@5, ",
    ),
    (
        "int g(void) { return 1; }
void f(void) {
  int x = g();
  ;
}",
        "0:1s0d0 0:1s0d0 1:2s1d0 1:5s1d0 1:4s2d0 1:3s1d0 | 0>1 assign@1, 2>0 call@3, 1>5 return@3, 5>4 assign@3, 4>3 skip@4, ",
    ),
    (
        "int g(void) { return 1; }
void f(void) {
  switch (g()) {
  case 1:
    ;
  }
}",
        "0:1s0d0 0:1s0d0 1:2s1d0 1:7s1d0 1:3s1d0 1:3s1d0 1:3s1d0 | 0>1 assign@1, 2>0 call@3, 1>6 return@3, 6>5 assign@3, 5>4 true@4?!, 5>3 false@4?!, 4>3 skip@5, ",
    ),
    (
        "int in(void);
int g(int v, int w) { return v; }
void f(void) {
  g(in(), in() + 1);
  in();
}",
        "0:2s0d0 0:2s0d0 1:3s1d0 1:6s1d0 1:5s1d0 1:4s1d0 1:4s1d0 | 0>1 assign@2, 2>5 answer@4, 5>6 answer@4, 6>0 call@4, 1>4 return@4, 4>3 answer@5, ",
    ),
    // A call in the index of `x op= e`, which is made once.
    (
        "int t[4];
int g(int v) { return v; }
void f(int x) {
  t[g(x)] += g(2);
}",
        "0:2s0d0 0:2s0d0 1:3s1d0 1:5s1d0 1:4s1d0 1:4s1d0 | 0>1 assign@2, 2>0 call@4, 1>4 return@4, 4>0 call@4, 1>5 return@4, 5>3 assign@4, ",
    ),
    // Arrays that are lent: a global, a local, and one that was lent.
    (
        "int t[2];
int g(int a[2], int i) { return a[i]; }
int h(int b[2]) { return g(b, 0); }
void f(void) {
  int u[2];
  g(t, 0);
  h(u);
}",
        "0:2s0d0 0:2s0d0 1:3s1d0 1:3s1d0 2:4s2d0 2:8s2d0 1:3s1d0 2:6s3d0 2:7s3d0 | 0>1 assign@2, 2>0 call@3, 1>6 return@3, 6>3 assign@3, 4>7 clear@5, 7>0 call@6, 1>8 return@6, 8>2 call@7, 3>5 return@7, ",
    ),
];
