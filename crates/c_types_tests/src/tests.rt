// Texts with what they are typed as.
mod printed;

use c_lex::{SourceText, are_small, tokens};
use c_parse::{Form, Item, Unit, parse};
use c_typed_trees::Typed;
use c_types::{check, type_expression};
use c_values::Kind;
use cfa::{Scope, Variable, VariablePlace, Variables};
use containers::Vector;
use fq_core::{Fault, Memory, Name, Place};
use printed::{show_expr, show_function, show_name, show_variable};
use std::alloc::Global;
use std::fmt::Write;
use std::test::Fail;
use test_sources::triangles;

fn unit_of(alloc: Global, source: &str) -> Result<Unit, Fault> {
    let name = Name::new(alloc, b"t.c")?;
    let bytes = Vector::from_vec(Vec::from_slice(alloc, source.as_bytes()).map_err(
        |_| Fault::Memory,
    )?);
    let texts = [SourceText { name, bytes }];
    if !are_small(&texts) {
        return Err(Fault::Memory);
    }
    let tokens = tokens(alloc, &texts)?;
    parse(alloc, &tokens)
}

fn typed_of(alloc: Global, source: &str) -> Result<Typed, Fault> {
    check(alloc, unit_of(alloc, source)?)
}

fn cause_of(fault: &Fault) -> (u16, u64) {
    match fault {
        Fault::Memory => (0, 0),
        Fault::Refused(refusal) => match &refusal.place {
            Place::Source { line, .. } => (refusal.code, *line as u64),
            Place::Limit { number } => (refusal.code, *number),
            _ => (refusal.code, 0),
        },
    }
}

// The code of the refusal and its line or limit; 0 where there is none.
fn refused(alloc: Global, source: &str) -> (u16, u64) {
    match typed_of(alloc, source) {
        Ok(_typed) => (0, 0),
        Err(fault) => cause_of(&fault),
    }
}

// The last function of a unit.
fn last_function(alloc: Global, source: &str) -> Result<String, Fail> {
    let mut text = String::new(alloc);
    match typed_of(alloc, source) {
        Ok(typed) => {
            if let Some(function) = typed.functions.as_slice().last() {
                show_function(&mut text, function)?;
            }
        }
        Err(fault) => {
            let (code, line) = cause_of(&fault);
            write!(text, "{code} at {line}")?;
        }
    }
    Ok(text)
}

// The globals of a unit with their first values.
fn globals_of(alloc: Global, source: &str) -> Result<String, Fail> {
    let mut text = String::new(alloc);
    match typed_of(alloc, source) {
        Ok(typed) => {
            for global in typed.globals.iter() {
                show_variable(&mut text, &global.variable)?;
                for value in global.first.iter() {
                    write!(text, " {value}")?;
                }
                text.push_str(";")?;
            }
        }
        Err(fault) => {
            let (code, line) = cause_of(&fault);
            write!(text, "{code} at {line}")?;
        }
    }
    Ok(text)
}

const NAMES: &str =
    "char c; unsigned char b; short s; int i; unsigned u; long l; unsigned long m; int t[4];
    int g(void); long f(int a, long b) { return a; } void h(int a[4], int n) {} ";

#[test]
fn expressions(rt: HostRuntime) -> Result<(), Fail> {
    let rows = [
        ("c + c", 1, "+(to(c.g0:i8):i32 to(c.g0:i8):i32):i32"),
        ("u + l", 1, "+(to(u.g4:u32):i64 l.g5:i64):i64"),
        ("i * u", 1, "*(to(i.g3:i32):u32 u.g4:u32):u32"),
        ("l | m", 1, "|(to(l.g5:i64):u64 m.g6:u64):u64"),
        ("c << l", 1, "<<(to(c.g0:i8):i32 l.g5:i64):i32"),
        ("u >> c", 1, ">>(u.g4:u32 to(c.g0:i8):i32):u32"),
        ("b < u", 1, "<(to(b.g1:u8):u32 u.g4:u32):i32"),
        ("s == s", 1, "==(to(s.g2:i16):i32 to(s.g2:i16):i32):i32"),
        ("!c", 1, "!(c.g0:i8):i32"),
        ("-s", 1, "-(to(s.g2:i16):i32):i32"),
        ("~u", 1, "~(u.g4:u32):u32"),
        ("+b", 1, "to(b.g1:u8):i32"),
        ("+i", 1, "to(i.g3:i32):i32"),
        ("(char) c", 1, "to(c.g0:i8):i8"),
        (
            "c ? c : b",
            2,
            "?@1(c.g0:i8 to(c.g0:i8):i32 to(b.g1:u8):i32):i32",
        ),
        (
            "i ? u : l",
            2,
            "?@1(i.g3:i32 to(u.g4:u32):i64 l.g5:i64):i64",
        ),
        (
            "i && c || u",
            3,
            "||@1(&&@2(i.g3:i32 c.g0:i8):i32 u.g4:u32):i32",
        ),
        ("t[c] == 2", 1, "==(t.g7x4[c.g0:i8]:i32 2:i32):i32"),
        (
            "f(c, g())",
            3,
            "call@1 f0(to(c.g0:i8):i32,to(call@2 in0():i32):i64,):i64",
        ),
        (
            "4294967295 + i",
            1,
            "+(4294967295:i64 to(i.g3:i32):i64):i64",
        ),
        ("1u - 2", 1, "-(1:u32 to(2:i32):u32):u32"),
    ];
    for (source, cells, printed) in rows {
        let whole = format!(in rt.alloc(); "{NAMES}void r(void) {{ assert({source}); }}")?;
        let expected = format!(in rt.alloc(); "r() {cells} {{assert {printed};}}")?;
        assert_eq!(rt;
            last_function(rt.alloc(), whole.as_str())?.as_str(),
            expected.as_str(),
            "{source}"
        );
    }
    Ok(())
}

#[test]
fn statements(rt: HostRuntime) -> Result<(), Fail> {
    let rows = [
        ("c = l;", "r(x.l1,) 2 {c.g0 = to(l.g5:i64):i8;}"),
        ("c += l;", "r(x.l1,) 2 {c.g0 + in i64 = l.g5:i64;}"),
        ("u <<= c;", "r(x.l1,) 2 {u.g4 << in u32 = to(c.g0:i8):i32;}"),
        ("c++;", "r(x.l1,) 2 {c.g0 + in i32 = 1:i32;}"),
        ("--u;", "r(x.l1,) 2 {u.g4 - in u32 = to(1:i32):u32;}"),
        (
            "t[g()] = g();",
            "r(x.l1,) 4 {t.g7x4[call@2 in0():i32] = call@3 in0():i32;}",
        ),
        ("h(t, x);", "r(x.l1,) 3 {call@2 f1(x.l1:i32,t.g7x4,);}"),
        (
            "int a, d[3] = {1, c}, e = a;",
            "r(x.l1,) 7 {local a.l2 -;array d.l3x3 1:i32 to(c.g0:i8):i32;local e.l6 a.l2:i32;}",
        ),
        (
            "int x2 = x && g(); { int y = g(); } int z;",
            "r(x.l1,) 8 {local x2.l2 &&@5(x.l1:i32 call@6 in0():i32):i32;{local y.l3 call@7 in0():i32;};local z.l4 -;}",
        ),
        (
            "for (int i = 0; i < x; i++) { int i; }",
            "r(x.l1,) 4 {for {local i.l2 0:i32;}<(i.l2:i32 x.l1:i32):i32 i.l2 + in i32 = 1:i32; {local i.l3 -;};;}",
        ),
        (
            "switch (c) { case 1: case 257: x = 1; break; default: x = 2; }",
            "r(x.l1,) 3 {switch@2 to(c.g0:i8):i32 case 1: case 257: {x.l1 = 1:i32;break;}default: {x.l1 = 2:i32;};}",
        ),
        (
            "switch (b) { case -1: int k; case 2: k = 1; }",
            "r(x.l1,) 4 {switch@3 to(b.g1:u8):i32 case 18446744073709551615: {local k.l2 -;}case 2: {k.l2 = 1:i32;};}",
        ),
        (
            "if (x) ; else if (c) return; else x = 1; L: while (x) continue;",
            "r(x.l1,) 2 {if x.l1:i32 ;if c.g0:i8 return -;else x.l1 = 1:i32;;L: while x.l1:i32 continue;;;}",
        ),
        (
            "do { break; } while (g());",
            "r(x.l1,) 3 {do {break;};while call@2 in0():i32;}",
        ),
    ];
    for (source, printed) in rows {
        let whole = format!(in rt.alloc(); "{NAMES}void r(int x) {{ {source} }}")?;
        assert_eq!(rt;
            last_function(rt.alloc(), whole.as_str())?.as_str(),
            printed,
            "{source}"
        );
    }
    Ok(())
}

#[test]
fn first_values(rt: HostRuntime) -> Result<(), Fail> {
    let rows = [
        ("char a; unsigned x = -1;", "a.g0 0;x.g1 4294967295;"),
        ("long y = 3000000000 * 2;", "y.g0 6000000000;"),
        (
            "int z[3] = {1, -1}, w = 5;",
            "z.g0x3 1 18446744073709551615 0;w.g3 5;",
        ),
        ("unsigned char a = 300;", "a.g0 44;"),
        (
            "enum { A = 2147483647, B }; int a = B;",
            "a.g0 18446744071562067968;",
        ),
        (
            "enum { A, B = 5, C }; int a[C] = {A, B};",
            "a.g0x6 0 5 0 0 0 0;",
        ),
        ("int a = 1 || 1 / 0;", "a.g0 1;"),
        ("int a = 0 && 1 / 0;", "a.g0 0;"),
        ("int a = 1 ? 7 : 1 / 0;", "a.g0 7;"),
        ("int a = 0 ? 7 : 2u;", "a.g0 2;"),
        ("int a = (char) 200;", "a.g0 18446744073709551560;"),
        (
            "int a = -7 / 2, b = 1 << 4;",
            "a.g0 18446744073709551613;b.g1 16;",
        ),
    ];
    for (source, printed) in rows {
        assert_eq!(rt;
            globals_of(rt.alloc(), source)?.as_str(),
            printed,
            "{source}"
        );
    }
    Ok(())
}

#[test]
fn refusals(rt: HostRuntime) -> Result<(), Fail> {
    let rows = [
        ("int f(void) { break; }", 29, 1),
        ("int f(void) {\n return; }", 29, 2),
        ("void f(void) {\n\n return 1; }", 29, 3),
        ("int f(int) { return 1; }", 29, 1),
        (
            "void f(int x) { switch (x) { case 1:\n continue; } }",
            29,
            2,
        ),
        ("int f(void) { return y; }", 30, 1),
        ("void f(void) {\n y = 1; }", 30, 2),
        ("void f(void) { g(); }", 30, 1),
        (
            "int g(void) { return f(1); }\nint f(int a) { return a; }",
            30,
            1,
        ),
        ("int a[y];", 30, 1),
        ("int x;\nint x;", 31, 2),
        ("void f(void) { int a; { int a; }\n int a; }", 31, 2),
        ("void f(int a) {\n int a; }", 31, 2),
        ("void f(void) { L: ; {\n L: ; } }", 31, 2),
        (
            "void f(int x) { switch (x) { case 1: ;\n case 1: ; } }",
            31,
            2,
        ),
        (
            "void f(int x) { switch (x) { default: ; case 1:\n default: ; } }",
            31,
            2,
        ),
        (
            "void f(int x) { switch (x) { case 0: int a; case 1:\n int a; } }",
            31,
            2,
        ),
        ("int f(void);\nint f(int a);", 31, 2),
        ("int f(int a[3]);\nint f(int a[4]);", 31, 2),
        (
            "int f(void) { return 1; }\nint f(void) { return 2; }",
            31,
            2,
        ),
        ("int f(int a,\n int a);", 31, 2),
        ("int A; enum {\n A };", 31, 2),
        ("int f(void) { return f(1); }", 32, 1),
        ("int f(int a) {\n return f(); }", 32, 2),
        ("int t[3]; int f(void) { return t; }", 33, 1),
        ("void g(void) {} int f(void) {\n return g(); }", 33, 2),
        ("int f(void) { f = 1; return 1; }", 33, 1),
        ("int x; int f(void) { return x[1]; }", 33, 1),
        ("int x; int f(void) { return x(); }", 33, 1),
        ("int x = {1};", 33, 1),
        ("int x[2] = 1;", 33, 1),
        ("int a[0];", 34, 1024),
        ("int a[1025];", 34, 1024),
        ("int a[-1];", 34, 1024),
        ("void f(void) { int a[2] = {1, 2, 3}; }", 34, 1024),
        (
            "void g(int a[3]) {} int t[4]; void f(void) { g(t); }",
            35,
            1,
        ),
        (
            "void g(int a[3]) {} short t[3]; void f(void) {\n g(t); }",
            35,
            2,
        ),
        ("void g(int a[3]) {} void f(void) { g(1); }", 35, 1),
        ("int x = x;", 38, 1),
        ("int a[1 + y];", 38, 1),
        ("enum { A = 1 / 0 };", 38, 1),
        ("void f(int x) { switch (x) {\n case x: ; } }", 38, 2),
        ("void g(int a);\nvoid f(void) {\n g(1); }", 39, 3),
        ("void g(void); void f(void) { g(); }", 39, 1),
        ("int g(int a); int f(void) { return g(); }", 32, 1),
        ("void f(void) {\n break;\n y = 1; }", 29, 2),
        ("void f(void) {\n y = 1;\n break; }", 30, 2),
        ("int f(void) { return y[z]; }", 30, 1),
        ("int f(void) {\n int a = b; return\n c; }", 30, 2),
    ];
    for (source, code, number) in rows {
        let cause = refused(rt.alloc(), source);
        assert_eq!(rt; cause.0, code, "{source}");
        assert_eq!(rt; cause.1, number, "{source}");
    }
    Ok(())
}

#[test]
fn accepted(rt: HostRuntime) -> Result<(), Fail> {
    let rows = [
        "int f(int); int f(int a) { return a; } int g(void) { return f(1); }",
        "int b(int n); int a(int n) { return b(n); } int b(int n) { return a(n); }",
        "int x; void f(void) { int x = x; }",
        "int f(int a[2 + 1]); int f(int a[3]) { return a[0]; } int t[3]; int g(void) { return f(t); }",
        "int f(void); int f(void); int f(void) { return 1; } int f(void);",
        "enum T { A }; int T; int f(int A) { return A; }",
        "void f(int x) { if (x) { L: ; } M: ; } void g(void) { L: ; }",
        "void f(int x) { switch (x) { case 1: switch (x) { case 1: break; default: break; } default: ; } }",
        "",
    ];
    for source in rows {
        assert_eq!(rt; refused(rt.alloc(), source).0, 0, "{source}");
    }
    Ok(())
}

// A list of so many arrays of 1,024 elements.
fn arrays(alloc: Global, count: u32) -> Result<String, Fail> {
    let mut text = String::new(alloc);
    for i in 0..count {
        write!(text, "int a{i}[1024]; ")?;
    }
    Ok(text)
}

#[test]
fn limits(rt: HostRuntime) -> Result<(), Fail> {
    let sixteen = arrays(rt.alloc(), 16)?;
    let rows = [
        ("", "", 0, 0),
        ("", " int b;", 37, 16384),
        (" int b;", "", 37, 16384),
    ];
    for (before, after, code, number) in rows {
        let globals = format!(in rt.alloc(); "{before}{sixteen}{after}")?;
        assert_eq!(rt;
            refused(rt.alloc(), globals.as_str()),
            (code, number),
            "{before} {after}"
        );
    }
    let few = arrays(rt.alloc(), 15)?;
    let fits = format!(in rt.alloc(); "void f(void) {{ {few} int b[1023]; }}")?;
    assert_eq!(rt; refused(rt.alloc(), fits.as_str()), (0, 0));
    let full = format!(in rt.alloc(); "void f(void) {{ {few} int b[1023]; f(); }}")?;
    assert_eq!(rt; refused(rt.alloc(), full.as_str()), (37, 16384));
    let faulty = format!(in rt.alloc(); "void f(void) {{ {few} int b[1024]; y = 1; }}")?;
    assert_eq!(rt; refused(rt.alloc(), faulty.as_str()), (37, 16384));
    Ok(())
}

#[test]
fn a_module(rt: HostRuntime) -> Result<(), Fail> {
    let mut text = String::new(rt.alloc());
    let mut names = String::new(rt.alloc());
    match typed_of(rt.alloc(), triangles()) {
        Ok(typed) => {
            for function in typed.functions.iter() {
                show_function(&mut text, function)?;
                text.push_str("\n")?;
            }
            for input in typed.inputs.iter() {
                show_name(&mut names, &input.name)?;
                names.push_str(" is an input; ")?;
            }
            for name in typed.declared.iter() {
                show_name(&mut names, name)?;
                names.push_str(" ")?;
            }
        }
        Err(fault) => {
            let (code, line) = cause_of(&fault);
            write!(text, "{code} at {line}")?;
        }
    }
    let printed =
        "put(v.l1,) 2 {if ==(count.g5:u32 to(4:i32):u32):i32 {return 0:i32;};;ring.g0x4[%(+(head.g4:u32 count.g5:u32):u32 to(4:i32):u32):u32] = v.l1:u8;count.g5 + in u32 = to(1:i32):u32;return 1:i32;}
take() 2 {assert >(count.g5:u32 to(0:i32):u32):i32;local v.l1 ring.g0x4[head.g4:u32]:u8;head.g4 = %(+(head.g4:u32 to(1:i32):u32):u32 to(4:i32):u32):u32;count.g5 - in u32 = to(1:i32):u32;return v.l1:u8;}
classify(a.l1,b.l2,c.l3,) 11 {if ||@4(||@5(<=(a.l1:i32 0:i32):i32 <=(b.l2:i32 0:i32):i32):i32 <=(c.l3:i32 0:i32):i32):i32 {return 0:i32;};;if ||@6(||@7(<=(+(a.l1:i32 b.l2:i32):i32 c.l3:i32):i32 <=(+(b.l2:i32 c.l3:i32):i32 a.l1:i32):i32):i32 <=(+(a.l1:i32 c.l3:i32):i32 b.l2:i32):i32):i32 {return 0:i32;};;if &&@8(==(a.l1:i32 b.l2:i32):i32 ==(b.l2:i32 c.l3:i32):i32):i32 {return 3:i32;};;if ||@9(||@10(==(a.l1:i32 b.l2:i32):i32 ==(b.l2:i32 c.l3:i32):i32):i32 ==(a.l1:i32 c.l3:i32):i32):i32 {return 2:i32;};;return 1:i32;}
main_loop(n.l1,) 12 {for {local i.l2 0:i32;}<(i.l2:i32 n.l1:i32):i32 i.l2 + in i32 = 1:i32; {call@6 f0(to(call@7 in0():i32):u8,);};;if <(count.g5:u32 to(3:i32):u32):i32 {return 0:i32;};;local a.l3 to(call@8 f1():u8):i32;local b.l4 to(call@9 f1():u8):i32;local c.l5 to(call@10 f1():u8):i32;return call@11 f2(a.l3:i32,b.l4:i32,c.l5:i32,):i32;}
";
    assert_eq!(rt; text.as_str(), printed);
    assert_eq!(rt;
        names.as_str(),
        "next_side is an input; next_side put take classify main_loop "
    );
    Ok(())
}

// The variables that are in scope, the innermost first: a name, a kind, a length and a place.
const IN_SCOPE: [(&str, u8, bool, Option<u32>, VariablePlace); 7] = [
    ("u", 32, false, None, VariablePlace::Local(2)),
    ("b", 8, false, Some(2), VariablePlace::Local(3)),
    ("c", 8, true, None, VariablePlace::Local(1)),
    ("a", 32, true, Some(3), VariablePlace::Lent(0)),
    ("i", 64, true, None, VariablePlace::Global(5)),
    ("u", 64, true, None, VariablePlace::Global(6)),
    ("t", 32, true, Some(4), VariablePlace::Global(7)),
];

fn in_scope(alloc: Global) -> Result<Scope, Memory> {
    let mut variables = Variables::new();
    for (name, width, signed, length, place) in IN_SCOPE.iter().rev() {
        let variable = Variable {
            name: Name::new(alloc, name.as_bytes())?,
            kind: Kind {
                width: *width,
                signed: *signed,
            },
            length: *length,
            place: *place,
        };
        variables = Variables::with(alloc, variable, variables)?;
    }
    Ok(Scope { variables })
}

// What the expression of the one statement of the one function of a unit is in that scope.
fn in_scope_of(alloc: Global, unit: &Unit) -> Result<String, Fail> {
    let mut text = String::new(alloc);
    let scope = in_scope(alloc)?;
    if let Some(
        Item::Function {
            body: Some(body),
            ..
        },
    ) = unit.items.as_slice().first()
        && let Some(statement) = body.statements.as_slice().first()
        && let Form::Assert(tree) = &statement.form
    {
        match type_expression(alloc, tree, &scope)? {
            Some(e) => show_expr(&mut text, &e)?,
            None => text.push_str("none")?,
        }
    }
    Ok(text)
}

#[test]
fn one_expression(rt: HostRuntime) -> Result<(), Fail> {
    let rows = [
        ("7", "7:i32"),
        ("c", "l1:i8"),
        ("u", "l2:u32"),
        ("c + u", "+(to(l1:i8):u32 l2:u32):u32"),
        ("u + i", "+(to(l2:u32):i64 g5:i64):i64"),
        ("t[c]", "g7x4[l1:i8]:i32"),
        ("a[t[0]]", "a0x3[g7x4[0:i32]:i32]:i32"),
        ("b[1]", "l3x2[1:i32]:u8"),
        ("-c", "-(to(l1:i8):i32):i32"),
        ("!c", "!(l1:i8):i8"),
        ("+c", "to(l1:i8):i32"),
        ("(char) u", "to(l2:u32):i8"),
        ("c << i", "<<(to(l1:i8):i32 g5:i64):i32"),
        ("u == 1", "==(l2:u32 to(1:i32):u32):u32"),
        ("1 / 0", "/(1:i32 0:i32):i32"),
        ("t", "none"),
        ("t + 1", "none"),
        ("b[a]", "none"),
        ("c[0]", "none"),
        ("x", "none"),
        ("x[0]", "none"),
        ("u && c", "none"),
        ("u || c", "none"),
        ("c ? u : i", "none"),
        ("f()", "none"),
    ];
    for (source, printed) in rows {
        let whole = format!(in rt.alloc(); "void r(void) {{ assert({source}); }}")?;
        let unit = unit_of(rt.alloc(), whole.as_str())?;
        assert_eq!(rt;
            in_scope_of(rt.alloc(), &unit)?.as_str(),
            printed,
            "{source}"
        );
    }
    Ok(())
}
