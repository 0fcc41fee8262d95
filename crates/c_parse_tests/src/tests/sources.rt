// Sources that are cut into tokens by c_lex and then read.
use crate::tests::cause_of;
use crate::tests::printed::show_item;
use crate::tests::tokens::repeated;
use c_lex::{SourceText, are_small, tokens};
use c_parse::{Item, Unit, parse};
use containers::Vector;
use fq_core::{Fault, Name};
use std::alloc::{AllocError, Global};
use std::test::Fail;
use test_sources::triangles;

fn unit_of(alloc: Global, source: &str) -> Result<Unit, Fault> {
    let name = Name::new(alloc, b"k.c")?;
    let bytes = Vector::from_vec(Vec::from_slice(alloc, source.as_bytes()).map_err(
        |_| Fault::Memory,
    )?);
    let texts = [SourceText { name, bytes }];
    if !are_small(&texts) {
        return Err(Fault::Memory);
    }
    let tokens = tokens(alloc, &texts)?;
    parse(alloc, &tokens)
}

#[test]
fn refusals_of_sources(rt: HostRuntime) -> Result<(), Fail> {
    let rows = [
        ("int f(void) { return @; }", 10, 1),
        ("int f(void) { /* x", 11, 1),
        ("#if 1", 12, 1),
        ("long f(void) { return 9223372036854775808; }", 13, 1),
        ("#define A B\n#define B A\nint f(void) { return A; }", 14, 3),
        ("int f(void) { return 1 }", 20, 1),
        ("float x;", 21, 1),
        ("int f(void) {\n return sizeof(int); }", 21, 2),
        ("int a[] = {1};\nchar *s = \"x\";", 21, 2),
        ("#define BEGIN {\nint f(void) BEGIN return 1; }", 0, 0),
    ];
    for (source, code, line) in rows {
        let cause = match unit_of(rt.alloc(), source) {
            Ok(_unit) => (0, 0),
            Err(fault) => cause_of(&fault),
        };
        assert_eq!(rt; cause.0, code, "{source}");
        assert_eq!(rt; cause.1, line, "{source}");
    }
    Ok(())
}

#[test]
fn a_whole_source(rt: HostRuntime) -> Result<(), Fail> {
    let Ok(unit) = unit_of(rt.alloc(), triangles()) else {
        return Err(Fail::from("refused"));
    };
    assert_eq!(rt; unit.items.len(), 9);
    let mut text = String::new(rt.alloc());
    if let [.., last] = unit.items.as_slice() {
        show_item(&mut text, last)?;
    }
    assert_eq!(rt;
        text.as_str(),
        "1{i32 5{main_loop} ( 15{i32 19{n}} ) 3{for 8{i32 12{i} = 16{0i32}} 19{< 19{i} 23{n}} 26{++ 26{i}} 31{block 5{call 5{put} 9{u8 19{call next_side}}}}} 3{if 7{< 7{count} 15{3i32}} 18{block 5{return 12{0i32}}} -} 3{i32 7{a} = 11{call take}} 3{i32 7{b} = 11{call take}} 3{i32 7{c} = 11{call take}} 3{return 10{call classify 19{a} 22{b} 25{c}}} 1}"
    );
    Ok(())
}

#[test]
fn as_long_as_the_limits_allow(rt: HostRuntime) -> Result<(), Fail> {
    // 198,001 tokens, of which 99,000 are a name of 10,000 bytes
    let mut source = String::new(rt.alloc());
    source.push_str("#define A ")?;
    repeated(&mut source, "x", 10_000)?;
    source.push_str("\nint A")?;
    repeated(&mut source, ", A", 98_999)?;
    source.push_str(";\n")?;
    let Ok(unit) = unit_of(rt.alloc(), source.as_str()) else {
        return Err(Fail::from("refused"));
    };
    let [Item::Variables { list, .. }] = unit.items.as_slice() else {
        return Err(Fail::from("no variables"));
    };
    assert_eq!(rt; list.len(), 99_000);
    Ok(())
}
