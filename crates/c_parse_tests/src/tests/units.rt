// Texts of units, worked by hand from C11's grammar (6.5 and 6.7 to 6.9).
use crate::tests::cause_of;
use crate::tests::printed::show_item;
use crate::tests::tokens::{repeated, tokens_of};
use c_parse::parse;
use std::alloc::Global;
use std::test::Fail;

// The items of a text, each behind a blank, or `none` where it is refused.
fn reading(alloc: Global, source: &str) -> Result<String, Fail> {
    let tokens = tokens_of(alloc, source)?;
    let mut text = String::new(alloc);
    match parse(alloc, &tokens) {
        Ok(unit) => {
            for item in unit.items.iter() {
                text.push_str(" ")?;
                show_item(&mut text, item)?;
            }
        }
        Err(_) => text.push_str("none")?,
    }
    Ok(text)
}

#[test]
fn trees_of_units(rt: HostRuntime) -> Result<(), Fail> {
    let rows = [
        ("", ""),
        (
            "int a ; int b , c [ 2 ] = { 1 , 2 , } ;",
            " 1{i32 2{a}} 4{i32 5{b} 7{c} [9{2i32}] = ( 13{1i32} 15{2i32} )}",
        ),
        (
            "static const unsigned a = 1 ; const static int b ;",
            " 1{u32 4{a} = 6{1i32}} 8{i32 11{b}}",
        ),
        (
            "extern inline static const void f ( void ) ;",
            " 1{void 6{f} ( )}",
        ),
        (
            "long unsigned int long f ( int , const char x , long y [ 4 ] ) ;",
            " 1{u64 5{f} ( 7{i32} 9{i8 11{x}} 13{i64 14{y} [16{4i32}]} )}",
        ),
        (
            "enum e { a , b = 2 , } ; enum { c } ;",
            " 1{enum 4{a} - 6{b} 8{2i32}} 12{enum 14{c} -}",
        ),
        (
            "int f ( int a ) { return a ; } int g ( ) { f ( 1 ) ; }",
            " 1{i32 2{f} ( 4{i32 5{a}} ) 8{return 9{a}} 11} 12{i32 13{g} ( ) 17{call 17{f} 19{1i32}} 22}",
        ),
    ];
    for (source, want) in rows {
        let text = reading(rt.alloc(), source)?;
        assert_eq!(rt; text.as_str(), want, "{source}");
    }
    Ok(())
}

// The function that the statements of a row stand in; its brace is the fifth token.
fn body_of(alloc: Global, statements: &str) -> Result<String, Fail> {
    let mut source = String::new(alloc);
    source.push_str("void f ( ) { ")?;
    source.push_str(statements)?;
    source.push_str(" }")?;
    reading(alloc, source.as_str())
}

#[test]
fn trees_of_statements(rt: HostRuntime) -> Result<(), Fail> {
    let rows = [
        (
            "for ( int i = 0 ; i < 3 ; i ++ ) a [ i ] += 1 ;",
            " 6{for 8{i32 9{i} = 11{0i32}} 13{< 13{i} 15{3i32}} 17{++ 17{i}} 20{+= 20{a} [22{i}] 25{1i32}}} 27",
        ),
        (
            "for ( ; ; ) ; for ( i = 0 ; ; ++ i ) continue ;",
            " 6{for - - - 11{empty}} 12{for 14{= 14{i} 16{0i32}} - 19{++ 20{i}} 22{continue}} 24",
        ),
        (
            "switch ( a ) { case 1 : default : b = 1 ; break ; case 2 : }",
            " 6{switch 8{a} ( 11{case 12{1i32}} 14{case -} : 16{= 16{b} 18{1i32}} 20{break} ) ( 22{case 23{2i32}} : )} 26",
        ),
        (
            "do { x : a -- ; } while ( a ) ; assert ( a ) ; assume ( b ) ;",
            " 6{do 7{block 8{label 8{x} 10{-- 10{a}}}} 16{a}} 19{assert 21{a}} 24{assume 26{b}} 29",
        ),
        (
            "if ( a ) if ( b ) ; else ;",
            " 6{if 8{a} 10{if 12{b} 14{empty} 16{empty}} -} 17",
        ),
        (
            "if ( a ) { if ( b ) ; } else ;",
            " 6{if 8{a} 10{block 11{if 13{b} 15{empty} -}} 18{empty}} 19",
        ),
        (
            "if ( a ) ; else if ( b ) ; else ;",
            " 6{if 8{a} 10{empty} 14{b} 16{empty} 18{empty}} 19",
        ),
        (
            "if ( a ) while ( b ) if ( c ) ; else ;",
            " 6{if 8{a} 10{while 12{b} 14{if 16{c} 18{empty} 20{empty}}} -} 21",
        ),
        (
            "x : y : a ++ ; b ++ ;",
            " 6{label 6{x} 8{label 8{y} 10{++ 10{a}}}} 13{++ 13{b}} 16",
        ),
        (
            "const int a = 1 , b [ 2 ] ; { } b [ 0 ] = a ; return ;",
            " 6{i32 8{a} = 10{1i32} 12{b} [14{2i32}]} 17{block} 19{= 19{b} [21{0i32}] 24{a}} 26{return -} 28",
        ),
        (
            "a *= 1 ; a /= 1 ; a %= 1 ; a -= 1 ; a <<= 1 ; a >>= 1 ; a &= 1 ; a ^= 1 ; a |= 1 ;",
            " 6{*= 6{a} 8{1i32}} 10{/= 10{a} 12{1i32}} 14{%= 14{a} 16{1i32}} 18{-= 18{a} 20{1i32}} 22{<<= 22{a} 24{1i32}} 26{>>= 26{a} 28{1i32}} 30{&= 30{a} 32{1i32}} 34{^= 34{a} 36{1i32}} 38{|= 38{a} 40{1i32}} 42",
        ),
    ];
    for (statements, want) in rows {
        let mut whole = String::new(rt.alloc());
        whole.push_str(" 1{void 2{f} ( )")?;
        whole.push_str(want)?;
        whole.push_str("}")?;
        let text = body_of(rt.alloc(), statements)?;
        assert_eq!(rt; text.as_str(), whole.as_str(), "{statements}");
    }
    Ok(())
}

// What the variable of `int x = VALUE ;` begins as; its value is the fourth token.
fn value_of(alloc: Global, value: &str) -> Result<String, Fail> {
    let mut source = String::new(alloc);
    source.push_str("int x = ")?;
    source.push_str(value)?;
    source.push_str(" ;")?;
    reading(alloc, source.as_str())
}

#[test]
fn trees_with_sequence_points(rt: HostRuntime) -> Result<(), Fail> {
    let rows = [
        ("a && b | c", "4{&& 4{a} 6{| 6{b} 8{c}}}"),
        ("a || b && c", "4{|| 4{a} 6{&& 6{b} 8{c}}}"),
        ("a && b || c", "4{|| 4{&& 4{a} 6{b}} 8{c}}"),
        ("a && b && c", "4{&& 4{&& 4{a} 6{b}} 8{c}}"),
        ("a ? b : c ? d : e", "4{? 4{a} 6{b} 8{? 8{c} 10{d} 12{e}}}"),
        ("a ? b ? c : d : e", "4{? 4{a} 6{? 6{b} 8{c} 10{d}} 12{e}}"),
        ("a || b ? c : d", "4{? 4{|| 4{a} 6{b}} 8{c} 10{d}}"),
        ("f ( )", "4{call f}"),
        (
            "f ( a , b ? c : d ) + t [ i ]",
            "4{+ 4{call f 6{a} 8{? 8{b} 10{c} 12{d}}} 15{[] t 17{i}}}",
        ),
        (
            "f ( g ( a ) , - b )",
            "4{call f 6{call g 8{a}} 11{- 12{b}}}",
        ),
    ];
    for (value, want) in rows {
        let mut whole = String::new(rt.alloc());
        whole.push_str(" 1{i32 2{x} = ")?;
        whole.push_str(want)?;
        whole.push_str("}")?;
        let text = value_of(rt.alloc(), value)?;
        assert_eq!(rt; text.as_str(), whole.as_str(), "{value}");
    }
    Ok(())
}

// The code and the line of the cause for which a text is refused, or 0.
fn refused(alloc: Global, source: &str) -> Result<(u16, u64), Fail> {
    let tokens = tokens_of(alloc, source)?;
    match parse(alloc, &tokens) {
        Ok(_unit) => Ok((0, 0)),
        Err(fault) => Ok(cause_of(&fault)),
    }
}

#[test]
fn refusals_of_units(rt: HostRuntime) -> Result<(), Fail> {
    let rows = [
        ("extern int a ;", 20, 1),
        ("int const a ;", 20, 1),
        ("enum { } ;", 20, 1),
        ("enum { a , , b } ;", 20, 1),
        ("void a ;", 20, 1),
        ("int * a ;", 20, 1),
        ("int a [ ] ;", 20, 1),
        ("int a [ 2 ] [ 3 ] ;", 20, 1),
        ("int a [ 2 ] = { } ;", 20, 1),
        ("int assert ;", 20, 1),
        ("int f ( void , int a ) ;", 20, 1),
        ("int f ( int a [ ] ) ;", 20, 1),
        ("int a ; \n int b \n int c ;", 20, 2),
        ("int a ; \n a = 1 ;", 20, 2),
        ("void f ( ) { } \n ;", 20, 2),
        ("int a ; \n void f ( ) { \n a = 1 \n }", 20, 2),
        ("void f ( ) { switch ( a ) { b = 1 ; } }", 20, 1),
        ("void f ( ) { switch ( a ) b = 1 ; }", 20, 1),
        ("void f ( ) { if ( a ) int b ; }", 20, 1),
        ("void f ( ) { if ( a ) ; else }", 20, 1),
        ("void f ( ) { static int a ; }", 20, 1),
        ("void f ( ) { x : }", 20, 1),
        ("void f ( ) { a + 1 ; }", 20, 1),
        ("void f ( ) { a = b = 1 ; }", 20, 1),
        ("void f ( ) { case 1 : ; }", 20, 1),
        ("void f ( ) { do ; while ( a ) }", 20, 1),
        ("void f ( ) {", 20, 1),
        ("int a ; \n \n goto", 21, 3),
    ];
    for (source, code, line) in rows {
        let cause = refused(rt.alloc(), source)?;
        assert_eq!(rt; cause.0, code, "{source}");
        assert_eq!(rt; cause.1, line, "{source}");
    }
    Ok(())
}

#[test]
fn limits_of_units(rt: HostRuntime) -> Result<(), Fail> {
    // so many braces in a function's body, of which the body's own is one, and the limit that is passed, or 0
    for (braces, limit) in [(59, 0), (60, 60)] {
        let mut source = String::new(rt.alloc());
        source.push_str("void f ( ) { ")?;
        repeated(&mut source, "{ ", braces)?;
        repeated(&mut source, "} ", braces)?;
        source.push_str("}")?;
        let cause = refused(rt.alloc(), source.as_str())?;
        assert_eq!(rt; cause.1, limit, "{braces}");
    }
    // `int x = a` has four tokens, and each `+ a` two; a call's comma ends a row
    for (sums, call, limit) in [(126, "", 0), (127, "", 256), (127, "+ f ( a , a ) ", 256)] {
        let mut source = String::new(rt.alloc());
        source.push_str("int x = a ")?;
        repeated(&mut source, "+ a ", sums)?;
        source.push_str(call)?;
        source.push_str(";")?;
        let cause = refused(rt.alloc(), source.as_str())?;
        assert_eq!(rt; cause.1, limit, "{sums} {call}");
    }
    let mut source = String::new(rt.alloc());
    source.push_str("int x = a ")?;
    repeated(&mut source, "+ a ", 120)?;
    source.push_str("+ f ( a , a ) ")?;
    repeated(&mut source, "+ a ", 120)?;
    source.push_str(";")?;
    let cause = refused(rt.alloc(), source.as_str())?;
    assert_eq!(rt; cause.0, 0);
    Ok(())
}

#[test]
fn statements_in_one_another(rt: HostRuntime) -> Result<(), Fail> {
    // what stands before `;` so many times, and what stands behind it as often; semicolons end the rows of tokens
    let rows = [
        ("for ( ; ; ) ", ""),
        ("for ( ; ; ) x : while ( a ) ", ""),
        ("if ( a ) ; else while ( a ) ", ""),
        ("if ( a ) ; else if ( a ) x : ", ""),
        ("do for ( ; ; ) ", "while ( a ) ; "),
    ];
    for (front, back) in rows {
        let mut source = String::new(rt.alloc());
        source.push_str("void f ( ) { ")?;
        repeated(&mut source, front, 5000)?;
        source.push_str("; ")?;
        repeated(&mut source, back, 5000)?;
        source.push_str("}")?;
        let cause = refused(rt.alloc(), source.as_str())?;
        assert_eq!(rt; cause.0, 0, "{front}");
    }
    Ok(())
}
