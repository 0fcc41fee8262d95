// What edges carry, and what scopes list: a source with what `carried_text` has of it, worked by hand from docs/GRAPH.md.
use super::Case;

pub static CARRIED: [Case; 5] = [
    (
        "int g;
void f(int x) {
  int y = x;
  {
    int x = y;
    g = x;
  }
  g = y;
}",
        "0Decl y<x; 0Decl x<y; 0Assign g<x; 0Assign g<y; | x g; y x g; x y x g; ",
    ),
    (
        "int t[4];
int g(int v) { return v; }
void f(int x) {
  t[g(x)] += g(2);
  t[x]++;
  x = t[x];
}",
        "0Return <v; 1Assign <x; 1Assign <; 1Assign <; 1Assign <; 1Assign t<t; 1Assign t<t,x; 1Assign x<t,x; | v t; x t; ",
    ),
    (
        "int t[2];
int g(int a[2], int i) { return a[i]; }
int h(int b[2]) { return g(b, 0); }
void f(void) {
  int u[2];
  g(t, 0);
  h(u);
}",
        "0Return <a,i; 1Return <b; 1Return <; 1Return <; 2Decl u<; 2Call <t; 2Call <; 2Call <u; 2Call <; | a i t; b t; t; u t; ",
    ),
    (
        "void f(int n) {
  again:
  while (n) {
    if (n > 5) break;
    n--;
    continue;
  }
  switch (n) { default: ; }
  assert(n);
  assume(1);
  return;
}",
        "0Label < :again; 0While <; 0While <n; 0While <n; 0If <n; 0If <n; 0Jump <; 0Assign n<n; 0Jump <; 0While <; 0Switch <n; 0Switch <; 0Empty <; 0Assert <n; 0Assume <; 0Return <; | n; ",
    ),
    (
        "int in(void);
void f(int a, int b) {
  int t[2] = {a, in()};
  do
    for (int i = a, j = b; i && j; i++)
      ;
  while (b ? a : t[1]);
}",
        "0Decl t<; 0Decl t<a; 0Decl <; 0Decl t<; 0Do <; 0Decl i<a; 0Decl j<b; 0For <; 0For <i; 0For <i; 0For <j; 0For <j; 0Empty <; 0Assign i<i; 0For <; 0Do <b; 0Do <b; 0Do <a; 0Do <t; 0Do <; 0Do <; 0Do <; | a b; t a b; j i t a b; i t a b; ",
    ),
];
