// Expected values: hand calculations from ISO/IEC 9899:2011, and the calls of c_values on the same patterns.
mod rows;

ghost use Rattle.std.specs.Prelude.{◌≤◌, All, IfOk, IfSome, length};
ghost use Rattle.circuit.specs.Wires.{IsWire};
ghost use Rattle.c_values.specs.Kind.{IsKind, IsValue};

use bit_words::{Word, choose, constant, convert, extended, neg, not};
use c_values::{BinaryOp, Kind, UnaryOp, binary_value, is_kind, is_value, unary_value};
use circuit::{Circuit, Lit, Memory};
use rows::{BY_HAND, KINDS, ONE_BY_HAND, OPERATORS, One, telling};
use std::alloc::Global;
use std::test::Fail;
use test_words::{answer, compared, free_pair, free_word, gives, pattern_in, value_in, world_of};

// The gates of an operator over two words of inputs, and the literals that compare what they give.
fn gates_of(alloc: Global, op: BinaryOp, kind: Kind) -> Result<(Circuit, (Lit, Lit)), Memory>
    requires { IsKind kind }
    ensures { IfOk result (λ r. IsWire r.0 r.1.0 × IsWire r.0 r.1.1) }
{
    let mut circuit = Circuit::new(alloc);
    let (a, b) = free_pair(&mut circuit)?;
    let (word, exists) = answer(&mut circuit, op, &a, &b, kind)?;
    let tests = compared(&mut circuit, &word, exists)?;
    Ok((circuit, tests))
}

// What a kind has of a pattern.
fn value(pattern: u64, kind: Kind) -> Option<u64>
    requires { IsKind kind }
    ensures { IfSome result (λ v. IsValue kind v) }
{
    if is_value(pattern, Kind::UNSIGNED_LONG) {
        Some(c_values::convert(pattern, Kind::UNSIGNED_LONG, kind))
    } else {
        None
    }
}

fn expected(op: BinaryOp, a: u64, b: u64, kind: Kind) -> Option<u64>
    requires { IsKind kind }
{
    let a = value(a, kind)?;
    let b = value(b, kind)?;
    binary_value(op, a, kind, b, kind)
}

// The first pair of operands at which the gates and the call of c_values differ.
fn first_wrong(
    alloc: Global,
    op: BinaryOp,
    kind: Kind,
    pairs: &[(u64, u64)],
) -> Result<Option<(u64, u64)>, Memory>
    requires { IsKind kind }
{
    let (circuit, tests) = gates_of(alloc, op, kind)?;
    for (a, b) in pairs {
        let want = expected(op, *a, *b, kind);
        if !gives(alloc, &circuit, tests, &[*a, *b], want)? {
            return Ok(Some((*a, *b)));
        }
    }
    Ok(None)
}

fn push_telling(pairs: &mut Vec<(u64, u64)>, kind: Kind) -> Result<(), Memory> {
    for i in 0..36u32 {
        pairs.push((telling(kind, i / 6), telling(kind, i % 6)))?;
    }
    Ok(())
}

// Numbers of a linear congruential generator, of which each second one is as small as the other's lowest bits say.
fn push_random(pairs: &mut Vec<(u64, u64)>, seed: u64) -> Result<(), Memory> {
    let mut last = seed;
    for _ in 0..8u32 {
        let first = last
            .wrapping_mul(6364136223846793005)
            .wrapping_add(1442695040888963407);
        last = first
            .wrapping_mul(6364136223846793005)
            .wrapping_add(1442695040888963407);
        pairs.push((first, last >> (first >> 7 & 63)))?;
    }
    Ok(())
}

// 12 operators of 8 kinds at 36 pairs of telling operands and at 8 of random ones, each pair a world.
#[test]
fn operators_of_each_kind(rt: HostRuntime) -> Result<(), Fail> {
    for kind in KINDS {
        assert!(rt; is_kind(kind));
        let mut pairs = Vec::new(rt.alloc());
        push_telling(&mut pairs, kind)?;
        push_random(&mut pairs, kind.width as u64)?;
        for op in OPERATORS {
            let wrong = first_wrong(rt.alloc(), op, kind, &pairs)?;
            assert_eq!(rt; wrong, None, "{op:?} of {kind:?}");
        }
    }
    Ok(())
}

// What an operator's gates over inputs give in the world of two operands.
fn found(alloc: Global, op: BinaryOp, kind: Kind, a: i64, b: i64) -> Result<Option<u64>, Memory>
    requires { IsKind kind }
{
    let mut circuit = Circuit::new(alloc);
    let (x, y) = free_pair(&mut circuit)?;
    let (word, exists) = answer(&mut circuit, op, &x, &y, kind)?;
    let world = world_of(alloc, &[a.cast_unsigned(), b.cast_unsigned()])?;
    value_in(&circuit, &word, exists, &world)
}

#[test]
fn values_by_hand(rt: HostRuntime) -> Result<(), Fail> {
    for (op, kind, a, b, want) in &BY_HAND {
        assert!(rt; is_kind(*kind));
        let found = found(rt.alloc(), *op, *kind, *a, *b)?;
        assert_eq!(rt;
            found,
            want.map(|v| v.cast_unsigned()),
            "{op:?} of {kind:?} {a} {b}"
        );
    }
    Ok(())
}

// What a call of one operand gives over what a kind has of a word.
fn answer_of_one(
    circuit: &mut Circuit,
    call: One,
    word: &Word,
    from: Kind,
    to: Kind,
) -> Result<Word, Memory>
    requires from { IsKind from }
    requires to { IsKind to }
    requires word { All (IsWire circuit.old) word.now }
    requires few { length circuit.old ≤ 1000 }
    ensures { IfOk result (λ r. All (IsWire circuit.new) r) }
{
    let a = extended(word, from);
    match call {
        One::Neg => neg(circuit, &a, from),
        One::Not => not(circuit, &a, from),
        One::Convert => Ok(convert(&a, from, to)),
    }
}

// The first telling operand at which a call and that of c_values differ.
fn first_wrong_of_one(alloc: Global, call: One, from: Kind, to: Kind) -> Result<Option<u64>, Memory>
    requires from { IsKind from }
    requires to { IsKind to }
{
    let mut circuit = Circuit::new(alloc);
    let x = free_word(&mut circuit)?;
    let word = answer_of_one(&mut circuit, call, &x, from, to)?;
    let tests = compared(&mut circuit, &word, Lit::YES)?;
    for number in 0..10u32 {
        let pattern = telling(from, number);
        let want = expected_of_one(call, from, to, pattern);
        if !gives(alloc, &circuit, tests, &[pattern], want)? {
            return Ok(Some(pattern));
        }
    }
    Ok(None)
}

fn expected_of_one(call: One, from: Kind, to: Kind, pattern: u64) -> Option<u64>
    requires from { IsKind from }
    requires to { IsKind to }
{
    let a = value(pattern, from)?;
    match call {
        One::Neg => Some(unary_value(UnaryOp::Neg, a, from)),
        One::Not => Some(unary_value(UnaryOp::Complement, a, from)),
        One::Convert => Some(c_values::convert(a, from, to)),
    }
}

// Each conversion between two kinds, and `-` and `~` of each kind, at ten telling operands.
#[test]
fn calls_of_one_operand(rt: HostRuntime) -> Result<(), Fail> {
    for from in KINDS {
        for to in KINDS {
            assert!(rt; is_kind(from) && is_kind(to));
            let wrong = first_wrong_of_one(rt.alloc(), One::Convert, from, to)?;
            assert_eq!(rt; wrong, None, "{from:?} to {to:?}");
        }
        for call in [One::Neg, One::Not] {
            assert!(rt; is_kind(from));
            let wrong = first_wrong_of_one(rt.alloc(), call, from, from)?;
            assert_eq!(rt; wrong, None, "{call:?} of {from:?}");
        }
    }
    Ok(())
}

// What a call of one operand gives in the world of a pattern.
fn found_of_one(alloc: Global, call: One, from: Kind, to: Kind, pattern: u64) -> Result<u64, Memory>
    requires from { IsKind from }
    requires to { IsKind to }
{
    let mut circuit = Circuit::new(alloc);
    let x = free_word(&mut circuit)?;
    let word = answer_of_one(&mut circuit, call, &x, from, to)?;
    pattern_in(&circuit, &word, &world_of(alloc, &[pattern])?)
}

#[test]
fn calls_of_one_operand_by_hand(rt: HostRuntime) -> Result<(), Fail> {
    for (call, from, to, a, want) in &ONE_BY_HAND {
        assert!(rt; is_kind(*from) && is_kind(*to));
        let found = found_of_one(rt.alloc(), *call, *from, *to, a.cast_unsigned())?;
        assert_eq!(rt; found, want.cast_unsigned(), "{call:?} {from:?} {to:?} {a}");
    }
    Ok(())
}

// What a choice between two words of inputs gives in a world, and a constant.
fn chosen(alloc: Global, test: bool, patterns: (u64, u64)) -> Result<(u64, u64), Memory> {
    let mut circuit = Circuit::new(alloc);
    let (a, b) = free_pair(&mut circuit)?;
    let lit = a[63];
    let word = choose(&mut circuit, lit, &a, &b)?;
    let first = if test {
        patterns.0 | 1 << 63
    } else {
        patterns.0
    };
    let world = world_of(alloc, &[first, patterns.1])?;
    let chosen = pattern_in(&circuit, &word, &world)?;
    Ok((chosen, pattern_in(&circuit, &constant(patterns.0), &world)?))
}

// A choice by the highest bit of its first word, and constants.
#[test]
fn choices_and_constants(rt: HostRuntime) -> Result<(), Fail> {
    for (a, b) in [(0, u64::MAX), (5, 6), (0x5a3c_9617_d2e4_4b81, 1 << 63)] {
        assert_eq!(rt; chosen(rt.alloc(), true, (a, b))?, (a | 1 << 63, a));
        assert_eq!(rt; chosen(rt.alloc(), false, (a, b))?, (b, a));
    }
    Ok(())
}
