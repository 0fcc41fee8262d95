use containers::{Same, TryClone};
use fq_core::*;
use std::test::Fail;

#[test]
fn words_of_texts(rt: HostRuntime) -> Result<(), Fail> {
    for (text, want) in [
        ("0", WordText::Number(0)),
        ("007", WordText::Number(7)),
        ("-0", WordText::Number(0)),
        ("-1", WordText::Number(0xffff_ffff_ffff_ffff)),
        (
            "18446744073709551615",
            WordText::Number(0xffff_ffff_ffff_ffff),
        ),
        ("18446744073709551616", WordText::OutOfRange),
        (
            "-9223372036854775808",
            WordText::Number(0x8000_0000_0000_0000),
        ),
        ("-9223372036854775809", WordText::OutOfRange),
        ("99999999999999999999999999999", WordText::OutOfRange),
        ("-99999999999999999999999999999", WordText::OutOfRange),
        ("000000000000000000000000000005", WordText::Number(5)),
        ("", WordText::NotNumber),
        ("-", WordText::NotNumber),
        ("--1", WordText::NotNumber),
        ("+1", WordText::NotNumber),
        ("1x", WordText::NotNumber),
        (" 1", WordText::NotNumber),
    ] {
        assert_eq!(rt; word_of(text.as_bytes()), want, "{text}");
    }
    Ok(())
}

#[test]
fn names_and_codes(rt: HostRuntime) -> Result<(), Fail> {
    let Ok(name) = Name::new(rt.alloc(), b"a.c") else {
        return Err(Fail::from("no memory"));
    };
    assert_eq!(rt; name.bytes(), b"a.c".as_slice());
    let copy = name.try_clone(rt.alloc())?;
    assert!(rt; copy.same(&name));
    assert!(rt; name.clone()? < Name::new(rt.alloc(), b"b").map_err(|_| "no memory")?);
    for (code, want) in [
        (2, "Usage"),
        (7, "ReadFault"),
        (10, "UnknownByte"),
        (11, "OpenComment"),
        (12, "Directive"),
        (13, "LiteralTooWide"),
        (14, "MacroLoop"),
        (15, "TooManyTokens"),
        (16, "FileTooLong"),
        (20, "Syntax"),
        (21, "OutOfProfile"),
        (22, "TooDeep"),
        (29, "Misplaced"),
        (30, "Unknown"),
        (31, "Twice"),
        (32, "Arity"),
        (33, "NotInteger"),
        (34, "ArrayLength"),
        (35, "ArrayArgument"),
        (36, "NoSuchEntry"),
        (37, "StoreTooLarge"),
        (38, "ConstantNeeded"),
        (39, "InputForm"),
        (41, "TooManyEdges"),
        (50, "NotJson"),
        (51, "Shape"),
        (52, "Range"),
        (53, "TooManyInputs"),
        (54, "RunsTooLong"),
        (55, "TraceForm"),
        (56, "NotTheRun"),
        (60, "Lexical"),
        (61, "QuerySyntax"),
        (62, "StarOutsideQuotes"),
        (63, "TooLarge"),
        (64, "BadNumber"),
        (65, "PredicateSyntax"),
        (66, "PredicateNowhere"),
        (67, "TooManyPredicates"),
        (70, "NoSuchName"),
        (71, "TooManyGoals"),
        (72, "NoGoals"),
        (73, "PatternTooLarge"),
        (74, "NoSuchGoal"),
        (80, "TooManyInstances"),
        (81, "UnwindingTooLarge"),
        (82, "GoalTooLarge"),
        (90, "CertificateForm"),
        (91, "OtherFormula"),
        (92, "BadStep"),
        (93, "NoEmptyClause"),
        (0, ""),
        (1, ""),
        (8, ""),
        (65535, ""),
    ] {
        assert_eq!(rt; code_name(code), want);
    }
    Ok(())
}

#[test]
fn long_texts(rt: HostRuntime) -> Result<(), Fail> {
    let alloc = rt.alloc();
    let mut bytes = vec![in alloc; b'0'; 1_000_000]?;
    bytes.push(b'7')?;
    assert_eq!(rt; word_of(&bytes), WordText::Number(7));
    let Ok(name) = Name::new(alloc, &bytes) else {
        return Err(Fail::from("no memory"));
    };
    assert_eq!(rt; name.bytes().len(), 1_000_001);
    Ok(())
}
