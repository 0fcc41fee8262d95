//! Counts the wires of gates, for bench/words: `count_wires calls`, `count_wires expressions`, `count_wires sum COUNT` or
//! `count_wires gates COUNT`.
//!
//! The first prints a line for each call of `bit_words` and each kind: the call, the kind's width, whether it has a sign,
//! and the wires. The second prints a line for each of some expressions: its weight, the wires that `translate` uses, and
//! the expression. The third translates a sum of so many operators from the left and prints the same. The fourth makes
//! twice so many gates over two inputs, each of wires below, and prints the wires.
#![tactic(auto)]

ghost use Rattle.std.specs.Prelude.{◌≡◌, ◌<◌, ◌^◌, All, IfOk};
ghost use Rattle.circuit.specs.Wires.{IsWire};
ghost use Rattle.c_values.specs.Kind.{IsKind};

mod tables;

use bit_words::{choose, equal, extended, less, neg, not};
use c_values::{Kind, is_kind};
use circuit::{Circuit, Memory, Truth};
use std::alloc::Global;
use std::process::ExitCode;
use std::{env, io};
use tables::{CALLS, Call, EXPRESSIONS, KINDS, PLACES};
use test_expressions::{Part, expression, free_store, left_nested, translated, weight};
use test_words::{answer, free_pair};

// How many wires a call of `bit_words` uses over two words of inputs.
fn wires_of(alloc: Global, call: Call, kind: Kind) -> Result<u32, Memory>
    requires { IsKind kind }
{
    let mut circuit = Circuit::new(alloc);
    let (a, b) = free_pair(&mut circuit)?;
    let before = circuit.wires();
    let x = extended(&a, kind);
    let y = extended(&b, kind);
    match call {
        Call::Two(op) => {
            answer(&mut circuit, op, &a, &b, kind)?;
        }
        Call::Neg => {
            neg(&mut circuit, &x, kind)?;
        }
        Call::Not => {
            not(&mut circuit, &x, kind)?;
        }
        Call::Less => {
            less(&mut circuit, &x, &y, kind)?;
        }
        Call::Equal => {
            equal(&mut circuit, &x, &y, kind)?;
        }
        Call::Choose => {
            choose(&mut circuit, a[0], &a, &b)?;
        }
    }
    Ok(circuit.wires().saturating_sub(before))
}

// The weight of an expression and the wires that its translation uses, if it meets the conditions.
fn weight_and_wires(alloc: Global, parts: &[Part]) -> Result<Option<(u64, u32)>, Memory> {
    let Some(expr) = expression(alloc, parts)? else {
        return Ok(None);
    };
    let mut circuit = Circuit::new(alloc);
    let store = free_store(alloc, &mut circuit, PLACES.cells)?;
    let before = circuit.wires();
    if translated(alloc, &mut circuit, &expr, &store, &PLACES)?.is_none() {
        return Ok(None);
    }
    let used = circuit.wires().saturating_sub(before);
    Ok(weight(&expr).map(|weight| (weight, used)))
}

fn print_calls(rt: &HostRuntime) -> Result<u8, io::Error> {
    for (name, call) in CALLS {
        for kind in KINDS {
            if !is_kind(kind) {
                continue;
            }
            match wires_of(rt.alloc(), call, kind) {
                Ok(wires) => println!(rt; "{name} {} {} {wires}", kind.width, kind.signed)?,
                Err(Memory) => return Ok(1),
            }
        }
    }
    Ok(0)
}

fn print_expression(rt: &HostRuntime, name: &str, parts: &[Part]) -> Result<u8, io::Error> {
    match weight_and_wires(rt.alloc(), parts) {
        Ok(Some((weight, wires))) => {
            println!(rt; "{weight} {wires} {name}")?;
            Ok(0)
        }
        _ => Ok(1),
    }
}

fn print_expressions(rt: &HostRuntime) -> Result<u8, io::Error> {
    let mut status = 0;
    for (name, parts) in EXPRESSIONS {
        status |= print_expression(rt, name, parts)?;
    }
    Ok(status)
}

fn print_sum(rt: &HostRuntime, word: &str) -> Result<u8, io::Error> {
    let Ok(count) = word.parse::<u32>() else {
        return Ok(2);
    };
    match left_nested(rt.alloc(), count) {
        Ok(parts) => print_expression(rt, "sum", &parts),
        Err(Memory) => Ok(1),
    }
}

// The wires of two inputs and of twice so many gates.
fn row_of_gates(alloc: Global, turns: u32) -> Result<u32, Memory>
    requires { turns < 2 ^ 28 }
{
    let mut circuit = Circuit::new(alloc);
    let mut last = circuit.input()?;
    let other = circuit.input()?;
    for _ in 0..turns {
        let wider = circuit.or(last, other)?;
        last = circuit.and(last, wider)?;
    }
    Ok(circuit.wires())
}

fn print_gates(rt: &HostRuntime, word: &str) -> Result<u8, io::Error> {
    let Ok(turns) = word.parse::<u32>() else {
        return Ok(2);
    };
    if turns >= 1 << 28 {
        return Ok(2);
    }
    match row_of_gates(rt.alloc(), turns) {
        Ok(wires) => {
            println!(rt; "{wires} gates")?;
            Ok(0)
        }
        Err(Memory) => Ok(1),
    }
}

fn main(rt: HostRuntime) -> Result<ExitCode, io::Error> {
    let mut words = env::args(&rt)?.skip(1);
    let mut status = 2;
    if let Some(what) = words.next() {
        status = match what.as_str() {
            "calls" => print_calls(&rt)?,
            "expressions" => print_expressions(&rt)?,
            "sum" => match words.next() {
                Some(count) => print_sum(&rt, count.as_str())?,
                None => 2,
            },
            "gates" => match words.next() {
                Some(count) => print_gates(&rt, count.as_str())?,
                None => 2,
            },
            _ => 2,
        };
    }
    Ok(ExitCode::from(status))
}
