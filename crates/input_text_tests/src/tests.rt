//! Texts of inputs with what they give or are refused for, worked by hand.
use c_meaning::Input;
use c_values::Kind;
use containers::Vector;
use fq_core::{Fault, Place};
use input_text::{accepted_texts_fit, input_json, inputs};
use std::alloc::{AllocError, Global};
use std::test::Fail;

// Inputs as `ARGUMENTS / ANSWERS;`, or a refusal as its code and its place.
fn push_words(text: &mut String, words: &[u64]) -> Result<(), AllocError> {
    for word in words {
        write!(text, "{word} ")?;
    }
    Ok(())
}

fn push_inputs(text: &mut String, list: &[Input]) -> Result<(), AllocError> {
    for input in list {
        push_words(text, &input.words)?;
        text.push('/')?;
        push_words(text, &input.answers)?;
        text.push(';')?;
    }
    Ok(())
}

fn push_place(text: &mut String, place: &Place) -> Result<(), AllocError> {
    match place {
        Place::InputNumber { number } => write!(text, "input {number}"),
        Place::Limit { number } => write!(text, "limit {number}"),
        _ => write!(text, "elsewhere"),
    }
}

fn push_fault(text: &mut String, fault: &Fault) -> Result<(), AllocError> {
    match fault {
        Fault::Refused(refusal) => {
            let code = refusal.code;
            write!(text, "{code} ")?;
            push_place(text, &refusal.place)
        }
        Fault::Memory => write!(text, "memory"),
    }
}

fn reading(alloc: Global, bytes: &[u8], parameters: u32) -> Result<String, Fail> {
    let mut text = String::new(alloc);
    match inputs(alloc, bytes, parameters) {
        Ok(list) => push_inputs(&mut text, &list)?,
        Err(fault) => push_fault(&mut text, &fault)?,
    }
    Ok(text)
}

#[test]
fn lines(rt: HostRuntime) -> Result<(), Fail> {
    let alloc = rt.alloc();
    for (text, parameters, given) in [
        ("", 1, ""),
        (" \t\r\n\n", 1, ""),
        ("5\n11\n", 1, "5 /;11 /;"),
        ("\n3 4\t5\r\n 0 4 5", 3, "3 4 5 /;0 4 5 /;"),
        (
            "-1\n-9223372036854775808\n18446744073709551615",
            1,
            "18446744073709551615 /;9223372036854775808 /;18446744073709551615 /;",
        ),
        ("5\n99999999999999999999", 1, "52 input 2"),
        ("-9223372036854775809", 1, "52 input 1"),
        ("18446744073709551616", 1, "52 input 1"),
        ("99999999999999999999 x", 2, "51 input 1"),
        ("x 99999999999999999999", 2, "51 input 1"),
        ("99999999999999999999", 2, "51 input 1"),
        ("99999999999999999999\nx", 1, "52 input 1"),
        ("1 2", 1, "51 input 1"),
        ("1\n+2", 1, "51 input 2"),
        ("1\u{b}2", 1, "51 input 1"),
        ("{\"args\":[1]}", 1, "51 input 1"),
    ] {
        assert_eq!(rt;
            reading(alloc, text.as_bytes(), parameters)?.as_str(),
            given,
            "at {text}"
        );
    }
    Ok(())
}

#[test]
fn json_texts(rt: HostRuntime) -> Result<(), Fail> {
    let alloc = rt.alloc();
    for (text, parameters, given) in [
        ("[]", 1, ""),
        (" \t\r\n[{\"args\":[]}]\n", 0, "/;"),
        (
            "[{\"args\":[3],\"answers\":[1,0]},{\"args\":[-1]}]",
            1,
            "3 /1 0 ;18446744073709551615 /;",
        ),
        (
            "[{\"other\":[[null]],\"args\":[18446744073709551615]}]",
            1,
            "18446744073709551615 /;",
        ),
        ("[{\"args\":\"x\",\"args\":[1]}]", 1, "1 /;"),
        ("[{\"args\":[1],\"args\":\"x\"}]", 1, "51 input 1"),
        ("[{\"\\u0061rgs\":[1]}]", 1, "1 /;"),
        ("[{\"args\":[1,2]}]", 1, "51 input 1"),
        ("[{\"args\":[1]},[1]]", 1, "51 input 2"),
        ("[{\"args\":[1],\"answers\":null}]", 1, "51 input 1"),
        ("[{\"answers\":[1]}]", 0, "51 input 1"),
        ("[{\"args\":[-0]}]", 1, "51 input 1"),
        ("[{\"args\":[1.0]}]", 1, "51 input 1"),
        ("[{\"args\":[1e2]}]", 1, "51 input 1"),
        ("[{\"args\":[18446744073709551616]}]", 1, "51 input 1"),
        ("[{\"args\":[-9223372036854775809]}]", 1, "51 input 1"),
        ("[{\"args\":[1e999]}]", 1, "50 input 0"),
        ("[1", 1, "50 input 0"),
        ("[] x", 1, "50 input 0"),
        ("[{\"args\":[01]}]", 1, "50 input 0"),
    ] {
        assert_eq!(rt;
            reading(alloc, text.as_bytes(), parameters)?.as_str(),
            given,
            "at {text}"
        );
    }
    assert_eq!(rt; reading(alloc, b"[\"\xff\"]", 1)?.as_str(), "50 input 0");
    Ok(())
}

// So many lines `5`, and then a last one.
fn many_lines(alloc: Global, count: u32, last: &str) -> Result<String, AllocError> {
    let mut text = String::new(alloc);
    for _ in 0..count {
        text.push_str("5\n")?;
    }
    text.push_str(last)?;
    Ok(text)
}

// An array of so many objects.
fn many_objects(alloc: Global, count: u32) -> Result<String, AllocError> {
    let mut text = String::from_str(alloc, "[{\"args\":[5]}")?;
    for _ in 1..count {
        text.push_str(",{\"args\":[5]}")?;
    }
    text.push(']')?;
    Ok(text)
}

#[test]
fn ten_thousand_inputs(rt: HostRuntime) -> Result<(), Fail> {
    let alloc = rt.alloc();
    let lines = many_lines(alloc, 10_000, "")?;
    assert_eq!(rt;
        inputs(alloc, lines.as_bytes(), 1).map_or(0, |list| list.len()),
        10_000
    );
    let objects = many_objects(alloc, 10_000)?;
    assert_eq!(rt;
        inputs(alloc, objects.as_bytes(), 1).map_or(0, |list| list.len()),
        10_000
    );
    for (last, given) in [
        ("5", "53 limit 10000"),
        ("x", "51 input 10001"),
        ("99999999999999999999", "52 input 10001"),
    ] {
        let lines = many_lines(alloc, 10_000, last)?;
        assert_eq!(rt;
            reading(alloc, lines.as_bytes(), 1)?.as_str(),
            given,
            "at {last}"
        );
    }
    let objects = many_objects(alloc, 10_001)?;
    assert_eq!(rt;
        reading(alloc, objects.as_bytes(), 1)?.as_str(),
        "53 limit 10000"
    );
    accepted_texts_fit();
    Ok(())
}

#[test]
fn printed_inputs(rt: HostRuntime) -> Result<(), Fail> {
    let alloc = rt.alloc();
    let int = Kind {
        width: 32,
        signed: true,
    };
    let unsigned_long = Kind {
        width: 64,
        signed: false,
    };
    let seven = Input {
        words: Vector::from_vec([7].to_vec(alloc)?),
        answers: Vector::new(alloc),
    };
    let text = input_json(alloc, &seven, &[int], &[])?.to_string(alloc)?;
    assert_eq!(rt; text.as_str(), "{\"answers\":[],\"args\":[7]}");
    let low = Input {
        words: Vector::from_vec([u64::MAX, u64::MAX].to_vec(alloc)?),
        answers: Vector::new(alloc),
    };
    let text = input_json(
        alloc,
        &low,
        &[int, unsigned_long],
        &[(unsigned_long, u64::MAX), (int, u64::MAX)],
    )?
    .to_string(alloc)?;
    assert_eq!(rt;
        text.as_str(),
        "{\"answers\":[18446744073709551615,-1],\"args\":[-1,18446744073709551615]}"
    );
    Ok(())
}
