// The text of a program, and the query for it.
ghost use Rattle.std.specs.Prelude.{◌≡◌, ◌≤◌, ◌++◌, IfOk, OnOk, string_bytes};
ghost use Rattle.std.specs.List.{flat_map, range_with_len};
ghost use Rattle.sample.specs.Sample.{call_text, caller_line, function_line, program_text, query_text};

use fq_core::Memory;
use std::alloc::{AllocError, Global};
use std::fmt::Write;

// Appends the line of the function of a number.
fn push_function(text: &mut String, number: u32) -> Result<(), AllocError>
    requires { number ≤ 200 }
    ensures { OnOk result (string_bytes text.new ≡ string_bytes text.old ++ function_line number) }
{
    let bound = 7 * number % 31;
    let less = 3 * number % 17;
    let more = 5 * number % 13;
    write!(
        text,
        "int g{number}(int x) {{ if (x > {bound}) {{ return x - {less}; }} return x + {more}; }}\n"
    )?;
    Ok(())
}

// Appends the lines of the functions from 1 to a number.
fn push_functions(text: &mut String, count: u32) -> Result<(), AllocError>
    requires { count ≤ 200 }
    ensures { OnOk result (string_bytes text.new ≡ string_bytes text.old ++ flat_map function_line (range_with_len 1 count)) }
{
    for place in 0..count {
        push_function(text, place + 1)?;
    }
    Ok(())
}

// Appends the calls of the functions from 1 to a number.
fn push_calls(text: &mut String, count: u32) -> Result<(), AllocError>
    requires { count ≤ 200 }
    ensures { OnOk result (string_bytes text.new ≡ string_bytes text.old ++ flat_map call_text (range_with_len 1 count)) }
{
    for place in 0..count {
        let number = place + 1;
        write!(text, " s = g{number}(s);")?;
    }
    Ok(())
}

// Appends the line of the function that calls those from 1 to a number.
fn push_caller(text: &mut String, count: u32) -> Result<(), AllocError>
    requires { count ≤ 200 }
    ensures { OnOk result (string_bytes text.new ≡ string_bytes text.old ++ caller_line count) }
{
    text.push_str("int f(int x) { int s = x;")?;
    push_calls(text, count)?;
    text.push_str(" return s; }\n")?;
    Ok(())
}

/// The text of a program in C that is made from a number from 1 to 200: a line for each number up to it with a function
/// that has one condition, and a last line with the function `f` that calls them in order. Each line ends with a line
/// feed.
pub fn program(alloc: Global, n: u32) -> Result<Vec<u8>, Memory>
    requires least { 1 ≤ n }
    requires most { n ≤ 200 }
    ensures { IfOk result (λ text. text.items ≡ program_text n) }
{
    let mut text = String::new(alloc);
    push_functions(&mut text, n)?;
    push_caller(&mut text, n)?;
    Ok(text.into_bytes())
}

/// The query for the program that is made from a number from 1 to 200, the same for all: it asks for each edge of a
/// condition.
pub fn sample_query(alloc: Global, n: u32) -> Result<Vec<u8>, Memory>
    requires least { 1 ≤ n }
    requires most { n ≤ 200 }
    ensures { IfOk result (λ query. query.items ≡ query_text) }
{
    Ok(Vec::from_slice(alloc, b"cover @CONDITIONEDGE")?)
}
