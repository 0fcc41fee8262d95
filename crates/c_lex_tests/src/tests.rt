mod triangles;

use c_lex::*;
use containers::Vector;
use fq_core::{Fault, Name, Place};
use std::alloc::{AllocError, Global};
use std::test::Fail;

fn source(alloc: Global, name: &[u8], bytes: &[u8]) -> Result<SourceText, AllocError> {
    let name = Name::new(alloc, name).map_err(|_| AllocError)?;
    let bytes = Vector::from_vec(Vec::from_slice(alloc, bytes)?);
    Ok(SourceText { name, bytes })
}

// The tokens as one line, `line:column` and a letter and the text for each, or the code and the place of a refusal.
pub fn shown(alloc: Global, texts: &[&[u8]]) -> Result<String, Fail> {
    let mut sources = Vec::new(alloc);
    for text in texts {
        sources.push(source(alloc, b"a.c", text)?)?;
    }
    let list = sources.as_slice();
    if list.len() >= 1 << 32 || !are_small(list) {
        return Err(Fail::from("the texts are too large"));
    }
    let mut line = String::new(alloc);
    match tokens(alloc, list) {
        Ok(list) => {
            for token in list.iter() {
                let text = std::str::from_utf8(token.text.bytes()).unwrap_or("?");
                let span = token.span;
                let (l, c) = (span.line, span.column);
                let kind = match token.kind {
                    TokenKind::Word => format!(in alloc; "w")?,
                    TokenKind::Mark => format!(in alloc; "m")?,
                    TokenKind::Foreign => format!(in alloc; "f")?,
                    TokenKind::Number { value, kind } => {
                        let sign = if kind.signed { "s" } else { "u" };
                        let width = kind.width;
                        format!(in alloc; "n{value}{sign}{width}")?
                    }
                };
                let piece = format!(in alloc; "{l}:{c}{kind}={text} ")?;
                line.push_str(piece.as_str())?;
            }
        }
        Err(Fault::Refused(refusal)) => {
            let code = refusal.code;
            let place = match refusal.place {
                Place::Source { file, line } => format!(in alloc; "{file}:{line}")?,
                Place::Limit { number } => format!(in alloc; "limit {number}")?,
                _ => format!(in alloc; "elsewhere")?,
            };
            let piece = format!(in alloc; "{code} {place}")?;
            line.push_str(piece.as_str())?;
        }
        Err(Fault::Memory) => line.push_str("memory")?,
    }
    Ok(line)
}

#[test]
fn texts_and_tokens(rt: HostRuntime) -> Result<(), Fail> {
    let alloc = rt.alloc();
    for (text, want) in [
        (b"".as_slice(), ""),
        (b"int x;", "1:1w=int 1:5w=x 1:6m=; "),
        (b"x+++++y", "1:1w=x 1:2m=++ 1:4m=++ 1:6m=+ 1:7w=y "),
        (b"a<<=b>>c", "1:1w=a 1:2m=<<= 1:5w=b 1:6m=>> 1:8w=c "),
        (
            b"1\n/* a\n b */ 2 // c\n3",
            "1:1n1s32=1 3:7n2s32=2 4:1n3s32=3 ",
        ),
        (
            b"0x1F 017 0 9u 9LL 9uLl",
            "1:1n31s32=0x1F 1:6n15s32=017 1:10n0s32=0 1:12n9u32=9u 1:15n9s64=9LL 1:19n9u64=9uLl ",
        ),
        (
            b"2147483647 2147483648 0x80000000 0xffffffffffffffff",
            "1:1n2147483647s32=2147483647 1:12n2147483648s64=2147483648 1:23n2147483648u32=0x80000000 1:34n18446744073709551615u64=0xffffffffffffffff ",
        ),
        (
            b"037777777777 0777777777777 01777777777777777777777 00",
            "1:1n4294967295u32=037777777777 1:14n68719476735s64=0777777777777 1:28n18446744073709551615u64=01777777777777777777777 1:52n0s32=00 ",
        ),
        (b"02000000000000000000000", "13 0:1"),
        (
            b"'a' '\\n' '\\0' ' '",
            "1:1n97s32='a' 1:5n10s32='\\n' 1:10n0s32='\\0' 1:15n32s32=' ' ",
        ),
        (
            b"1.5 08 0X1 0x 1e5 \"a\\\"b\" goto . -> ...",
            "1:1f=1.5 1:5f=08 1:8f=0X1 1:12f=0x 1:15f=1e5 1:19f=\"a\\\"b\" 1:26f=goto 1:31f=. 1:33f=-> 1:36f=... ",
        ),
        (b"# include /* c */ <a//b.h> // d\nx", "2:1w=x "),
        (
            b"#define N 4\n#define M N + N\nint a[M];",
            "3:1w=int 3:5w=a 3:6m=[ 3:7n4s32=4 3:7m=+ 3:7n4s32=4 3:8m=] 3:9m=; ",
        ),
        (
            b"#define volatile\nvolatile int x;",
            "2:10w=int 2:14w=x 2:15m=; ",
        ),
        (b"N\n#define N 1\nN", "1:1w=N 3:1n1s32=1 "),
        (b"#define A A\nint x;", "2:1w=int 2:5w=x 2:6m=; "),
        (
            b"int x; /* \n */ #define A 1\nA",
            "1:1w=int 1:5w=x 1:6m=; 3:1n1s32=1 ",
        ),
        (b"/* \xe9 */ x", "1:9w=x "),
        (b"int f(void) { return @; }", "10 0:1"),
        (b"a\n\"open", "10 0:2"),
        (b"'ab'", "10 0:1"),
        (b"x \xe9", "10 0:1"),
        (b"\x00", "10 0:1"),
        (b"#include <\xe9>", "10 0:1"),
        (b"x #define A", "10 0:1"),
        (b"a\n/* b", "11 0:2"),
        (b"#if 1", "12 0:1"),
        (b"\n#", "12 0:2"),
        (b"#define F(x) x", "12 0:1"),
        (b"#define A @", "12 0:1"),
        (b"#define A /* b\n*/", "12 0:1"),
        (b"#define A 1\n#define A 1", "12 0:2"),
        (b"#include \"a.h\"", "12 0:1"),
        (b"#include <a.h> x", "12 0:1"),
        (b"long f(void) { return 9223372036854775808; }", "13 0:1"),
        (b"0x10000000000000000", "13 0:1"),
        (b"#define A 9223372036854775808", "13 0:1"),
        (
            b"#define A B\n#define B A\nint f(void) { return A; }",
            "14 0:3",
        ),
        (b"#define A A\nA", "14 0:2"),
        (b"#define A B C\n#define C A\nA", "14 0:3"),
        (b"#define A B 1 +\n#define B B\nint x;\nA", "14 0:4"),
    ] {
        let got = shown(alloc, &[text])?;
        assert_eq!(rt; got.as_str(), want);
    }
    Ok(())
}

#[test]
fn several_texts(rt: HostRuntime) -> Result<(), Fail> {
    let alloc = rt.alloc();
    let got = shown(alloc, &[b"#define A 1\nA".as_slice(), b"A;".as_slice()])?;
    assert_eq!(rt; got.as_str(), "2:1n1s32=1 1:1w=A 1:2m=; ");
    let got = shown(alloc, &[b"A".as_slice(), b"\n@".as_slice()])?;
    assert_eq!(rt; got.as_str(), "10 1:2");
    let looping = b"#define B C\n#define C B\n\nB".as_slice();
    let got = shown(alloc, &[b"#define A 1\nA".as_slice(), looping])?;
    assert_eq!(rt; got.as_str(), "14 1:4");
    Ok(())
}

// A row of macros, each of which gives the next one twice or once, and the use of the first.
fn macros_in_a_row(alloc: Global, count: usize, twice: bool) -> Result<String, Fail> {
    let mut text = String::new(alloc);
    for i in 0..count {
        let next = i + 1;
        let line = if twice {
            format!(in alloc; "#define a{i} a{next} a{next}\n")?
        } else {
            format!(in alloc; "#define a{i} a{next}\n")?
        };
        text.push_str(line.as_str())?;
    }
    text.push_str("a0")?;
    Ok(text)
}

// A row of macros, each of which gives the next one and the last one the first, in order or from the last one on, and
// the use of the first.
fn macros_in_a_ring(alloc: Global, count: usize, backward: bool) -> Result<String, Fail> {
    let mut text = String::new(alloc);
    for i in 0..count {
        let at = if backward { count - 1 - i } else { i };
        let next = if at + 1 == count { 0 } else { at + 1 };
        let line = format!(in alloc; "#define a{at} a{next}\n")?;
        text.push_str(line.as_str())?;
    }
    text.push_str("a0")?;
    Ok(text)
}

#[test]
fn hostile_texts(rt: HostRuntime) -> Result<(), Fail> {
    let alloc = rt.alloc();
    let chain = macros_in_a_row(alloc, 10_000, false)?;
    let got = shown(alloc, &[chain.as_bytes()])?;
    assert_eq!(rt; got.as_str(), "10001:1w=a10000 ");
    let doubling = macros_in_a_row(alloc, 20, true)?;
    let got = shown(alloc, &[doubling.as_bytes()])?;
    assert_eq!(rt; got.as_str(), "15 limit 200000");
    for backward in [false, true] {
        let ring = macros_in_a_ring(alloc, 10_000, backward)?;
        let got = shown(alloc, &[ring.as_bytes()])?;
        assert_eq!(rt; got.as_str(), "14 0:10001");
    }
    let blanks = vec![in alloc; b' '; 1 << 22]?;
    let got = shown(alloc, &[blanks.as_slice()])?;
    assert_eq!(rt; got.as_str(), "");
    let slashes = vec![in alloc; b'/'; 4_000_000]?;
    let got = shown(alloc, &[slashes.as_slice()])?;
    assert_eq!(rt; got.as_str(), "");
    let digits = vec![in alloc; b'9'; 1 << 22]?;
    let got = shown(alloc, &[digits.as_slice()])?;
    assert_eq!(rt; got.as_str(), "13 0:1");
    let word = vec![in alloc; b'a'; 1 << 22]?;
    assert_eq!(rt; number_of_tokens(alloc, word.as_slice())?, 1);
    Ok(())
}

fn number_of_tokens(alloc: Global, text: &[u8]) -> Result<usize, Fail> {
    let mut sources = Vec::new(alloc);
    sources.push(source(alloc, b"a.c", text)?)?;
    let list = sources.as_slice();
    if list.len() >= 1 << 32 || !are_small(list) {
        return Err(Fail::from("the text is too large"));
    }
    match tokens(alloc, list) {
        Ok(list) => Ok(list.len()),
        Err(_) => Err(Fail::from("the text is refused")),
    }
}

// So many uses of a macro that gives a word of so many letters, or nothing where there are none.
fn uses(alloc: Global, letters: usize, count: usize) -> Result<String, Fail> {
    let mut text = String::new(alloc);
    text.push_str("#define A ")?;
    for _ in 0..letters {
        text.push_str("x")?;
    }
    text.push_str("\n")?;
    for _ in 0..count {
        text.push_str("A ")?;
    }
    Ok(text)
}

#[test]
fn limits(rt: HostRuntime) -> Result<(), Fail> {
    let alloc = rt.alloc();
    let marks = vec![in alloc; b';'; 200_000]?;
    assert_eq!(rt; number_of_tokens(alloc, marks.as_slice())?, 200_000);
    let marks = vec![in alloc; b';'; 200_001]?;
    let got = shown(alloc, &[marks.as_slice()])?;
    assert_eq!(rt; got.as_str(), "15 limit 200000");
    for (letters, count, want) in [
        (0, 200_000, 0),
        (1, 200_000, 200_000),
        (10_000, 99_000, 99_000),
        (40_000, 147_000, 147_000),
    ] {
        let words = uses(alloc, letters, count)?;
        assert_eq!(rt; number_of_tokens(alloc, words.as_bytes())?, want);
    }
    let words = uses(alloc, 0, 200_001)?;
    let got = shown(alloc, &[words.as_bytes()])?;
    assert_eq!(rt; got.as_str(), "15 limit 200000");
    Ok(())
}
