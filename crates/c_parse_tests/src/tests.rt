//! Texts with the trees or the refusals that they have, worked by hand from C11's grammar (6.5).
mod printed;
mod sources;
mod tokens;
mod units;

use c_parse::expression;
use fq_core::{Fault, Place};
use printed::show;
use std::alloc::Global;
use std::test::Fail;
use tokens::{repeated, tokens_of};

// The line or the limit of a place, or 0.
fn number_of(place: &Place) -> u64 {
    match place {
        Place::Source { line, .. } => *line as u64,
        Place::Limit { number } => *number,
        _ => 0,
    }
}

// The code of a refusal, and the line or the limit of its place; 0 for want of memory.
pub fn cause_of(fault: &Fault) -> (u16, u64) {
    match fault {
        Fault::Refused(refusal) => (refusal.code, number_of(&refusal.place)),
        Fault::Memory => (0, 0),
    }
}

// What the text of a row is read as: its tree, or `none` where it is refused as no expression.
fn reading(alloc: Global, source: &str) -> Result<String, Fail> {
    let tokens = tokens_of(alloc, source)?;
    let mut text = String::new(alloc);
    match expression(alloc, &tokens) {
        Ok(tree) => show(&mut text, &tree)?,
        Err(fault) => {
            if cause_of(&fault).0 == 20 {
                text.push_str("none")?;
            }
        }
    }
    Ok(text)
}

// The code and the number of the cause for which a text is refused; 0 where it is none.
fn refused(alloc: Global, source: &str) -> Result<(u16, u64), Fail> {
    let tokens = tokens_of(alloc, source)?;
    match expression(alloc, &tokens) {
        Ok(_tree) => Ok((0, 0)),
        Err(fault) => Ok(cause_of(&fault)),
    }
}

#[test]
fn trees_of_expressions(rt: HostRuntime) -> Result<(), Fail> {
    let rows = [
        ("7", "1{7i32}"),
        ("a - b - c", "1{- 1{- 1{a} 3{b}} 5{c}}"),
        ("a - ( b - c )", "1{- 1{a} 4{- 4{b} 6{c}}}"),
        ("( a - b ) - c", "1{- 2{- 2{a} 4{b}} 7{c}}"),
        ("( ( a ) )", "3{a}"),
        ("a + b * c", "1{+ 1{a} 3{* 3{b} 5{c}}}"),
        ("a * b + c", "1{+ 1{* 1{a} 3{b}} 5{c}}"),
        ("a << b + c", "1{<< 1{a} 3{+ 3{b} 5{c}}}"),
        ("a < b << c", "1{< 1{a} 3{<< 3{b} 5{c}}}"),
        ("a == b < c", "1{== 1{a} 3{< 3{b} 5{c}}}"),
        ("a & b == c", "1{& 1{a} 3{== 3{b} 5{c}}}"),
        ("a ^ b & c", "1{^ 1{a} 3{& 3{b} 5{c}}}"),
        ("a | b ^ c", "1{| 1{a} 3{^ 3{b} 5{c}}}"),
        ("- a * b", "1{* 1{- 2{a}} 4{b}}"),
        ("! ~ + - a", "1{! 2{~ 3{+ 4{- 5{a}}}}}"),
        ("a - - b", "1{- 1{a} 3{- 4{b}}}"),
        ("( int ) a + b", "1{+ 1{i32 4{a}} 6{b}}"),
        ("( long unsigned int long ) - a", "1{u64 7{- 8{a}}}"),
        ("( uint8_t ) ( a + b )", "1{u8 5{+ 5{a} 7{b}}}"),
        (
            "t [ i + 1 ] * - 2",
            "1{* 1{[] t 3{+ 3{i} 5{1i32}}} 8{- 9{2i32}}}",
        ),
        ("a && b", "none"),
        ("a || b", "none"),
        ("a ? b : c", "none"),
        ("f ( )", "none"),
        ("- ( a + f ( b ) )", "none"),
        ("t [ a && b ] + 1", "none"),
        ("( a ) ( b )", "none"),
        ("( short char ) a", "none"),
        ("( unsigned size_t ) a", "none"),
        ("( signed unsigned ) a", "none"),
        ("( long long long ) a", "none"),
        ("( ) a", "none"),
        ("a +", "none"),
        ("a , b", "none"),
        ("a = b", "none"),
        ("a b", "none"),
        ("f ( , )", "none"),
        ("a [ ]", "none"),
        ("t [ i ] [ j ]", "none"),
        ("if", "none"),
        ("assert ( a )", "none"),
        ("( a", "none"),
        ("", "none"),
    ];
    for (source, want) in rows {
        let text = reading(rt.alloc(), source)?;
        assert_eq!(rt; text.as_str(), want, "{source}");
    }
    Ok(())
}

#[test]
fn refusals_before_the_grammar(rt: HostRuntime) -> Result<(), Fail> {
    // the first token that the profile leaves out goes before all else, also in no expression
    for (source, line) in [("a + struct", 1), ("( a . b", 1), ("+ \n a -> b goto", 2)] {
        let cause = refused(rt.alloc(), source)?;
        assert_eq!(rt; cause.0, 21, "{source}");
        assert_eq!(rt; cause.1, line, "{source}");
    }
    Ok(())
}

#[test]
fn limits(rt: HostRuntime) -> Result<(), Fail> {
    // how often the first and the last part stand in the text, and the limit that is passed, or 0
    let rows = [
        ("( ", 60, " )", 60, 0),
        ("( ", 61, " )", 61, 60),
        ("- ", 255, "", 0, 0),
        ("- ", 256, "", 0, 256),
        ("( ", 60, " + a", 98, 256),
    ];
    for (before, n, after, m, limit) in rows {
        let mut source = String::new(rt.alloc());
        repeated(&mut source, before, n)?;
        source.push_str("a")?;
        repeated(&mut source, after, m)?;
        let cause = refused(rt.alloc(), source.as_str())?;
        assert_eq!(rt; cause.0, if limit == 0 { 0 } else { 22 }, "{before} {n}");
        assert_eq!(rt; cause.1, limit, "{before} {n}");
    }
    Ok(())
}
