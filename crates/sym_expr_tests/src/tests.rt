// Expected values: gcc's (rows.rt), and hand calculations.
ghost use Rattle.std.specs.Prelude.{All};
ghost use Rattle.circuit.specs.Wires.{IsWire};

mod rows;

use bit_words::{Word, constant};
use c_values::{BinaryOp, Kind};
use cfa::ArrayPlace;
use circuit::{Circuit, Memory};
use rows::{PLACES, ROWS, WORLDS};
use std::alloc::Global;
use std::test::Fail;
use test_expressions::{Part, Places, expression, free_store, left_nested, put_at, translated};
use test_words::{compared, gives, pattern_in, world_of};

// The number of the first of some worlds in which an expression over a store of inputs hasn't the value that is wanted, or
// has one where none is. The number is theirs where there is no such, and one more where the parts make no expression that
// meets the conditions of `translate`.
fn first_wrong(
    alloc: Global,
    parts: &[Part],
    places: &Places,
    worlds: &[(&[u64], Option<u64>)],
) -> Result<usize, Memory> {
    let Some(expr) = expression(alloc, parts)? else {
        return Ok(worlds.len() + 1);
    };
    let mut circuit = Circuit::new(alloc);
    let store = free_store(alloc, &mut circuit, places.cells)?;
    let Some(answer) = translated(alloc, &mut circuit, &expr, &store, places)? else {
        return Ok(worlds.len() + 1);
    };
    let word = answer.0;
    let tests = compared(&mut circuit, &word, answer.1)?;
    for k in 0..worlds.len() {
        let (patterns, want) = worlds[k];
        if !gives(alloc, &circuit, tests, patterns, want)? {
            return Ok(k);
        }
    }
    Ok(worlds.len())
}

#[test]
fn rows_in_three_worlds(rt: HostRuntime) -> Result<(), Fail> {
    for row in 0..ROWS.len() {
        let (parts, want) = ROWS[row];
        let worlds: [(&[u64], Option<u64>); 3] = [
            (&WORLDS[0], want[0].map(|v| v.cast_unsigned())),
            (&WORLDS[1], want[1].map(|v| v.cast_unsigned())),
            (&WORLDS[2], want[2].map(|v| v.cast_unsigned())),
        ];
        let wrong = first_wrong(rt.alloc(), parts, &PLACES, &worlds)?;
        assert_eq!(rt; wrong, 3, "row {row}");
    }
    Ok(())
}

fn push_sums(parts: &mut Vec<Part>, count: u32) -> Result<(), Memory> {
    for _ in 0..count {
        parts.push(Part::Two(BinaryOp::Add, Kind::INT))?;
    }
    Ok(())
}

// The first global so many times, a power of two, summed in pairs, in pairs of pairs and so on.
fn balanced(alloc: Global, count: u32) -> Result<Vec<Part>, Memory> {
    let mut parts = Vec::new(alloc);
    for number in 0..count {
        parts.push(Part::Global(0, Kind::INT))?;
        push_sums(&mut parts, (!number).trailing_zeros())?;
    }
    Ok(parts)
}

// A sum of 201 operands from the left is 7 + 200, and one of 4,096 in pairs is 4096 * 7, or 0 of the least int, modulo 2^32.
#[test]
fn large_sums(rt: HostRuntime) -> Result<(), Fail> {
    let alloc = rt.alloc();
    let worlds: [(&[u64], Option<u64>); 2] = [
        (&WORLDS[0], Some(207)),
        (&WORLDS[1], Some(0xffff_ffff_8000_00c8)),
    ];
    let parts = left_nested(alloc, 200)?;
    assert_eq!(rt; first_wrong(alloc, &parts, &PLACES, &worlds)?, 2);
    let worlds: [(&[u64], Option<u64>); 2] = [(&WORLDS[0], Some(28672)), (&WORLDS[1], Some(0))];
    let parts = balanced(alloc, 4096)?;
    assert_eq!(rt; first_wrong(alloc, &parts, &PLACES, &worlds)?, 2);
    Ok(())
}

// The cells of an array of 300 ints, of which each holds three times its place, and of the index behind them.
fn cells(alloc: Global, index: u64) -> Result<Vec<u64>, Memory> {
    let mut cells = Vec::new(alloc);
    for place in 0..300u64 {
        cells.push(3 * place)?;
    }
    cells.push(index)?;
    Ok(cells)
}

#[test]
fn long_array(rt: HostRuntime) -> Result<(), Fail> {
    let alloc = rt.alloc();
    let places = Places {
        cells: 301,
        globals: 301,
        base: 301,
        locals: 0,
        lent: (0, 0),
    };
    let parts = [
        Part::Global(300, Kind::INT),
        Part::Element(ArrayPlace::Global(0), 300, Kind::INT),
    ];
    let first = cells(alloc, 0)?;
    let middle = cells(alloc, 256)?;
    let last = cells(alloc, 299)?;
    let past = cells(alloc, 300)?;
    let worlds: [(&[u64], Option<u64>); 4] = [
        (&first, Some(0)),
        (&middle, Some(768)),
        (&last, Some(897)),
        (&past, None),
    ];
    assert_eq!(rt; first_wrong(alloc, &parts, &places, &worlds)?, 4);
    Ok(())
}

// What each of some words is in a world.
fn patterns_in(
    alloc: Global,
    circuit: &Circuit,
    words: &[Word],
    world: &[bool],
) -> Result<Vec<u64>, Memory>
    requires { All (All (IsWire circuit.now)) words.now }
{
    let mut patterns = Vec::new(alloc);
    for word in words {
        patterns.push(pattern_in(circuit, word, world)?)?;
    }
    Ok(patterns)
}

// What the cells of a store are after 9 was put into the element that the first of them names among the four behind it, and
// whether it names one.
fn written(alloc: Global, patterns: &[u64]) -> Result<Option<(Vec<u64>, bool)>, Memory> {
    let places = Places {
        cells: 5,
        globals: 5,
        base: 5,
        locals: 0,
        lent: (0, 0),
    };
    let parts = [
        Part::Global(0, Kind::INT),
        Part::Element(ArrayPlace::Global(1), 4, Kind::INT),
    ];
    let Some(load) = expression(alloc, &parts)? else {
        return Ok(None);
    };
    let mut circuit = Circuit::new(alloc);
    let mut store = free_store(alloc, &mut circuit, places.cells)?;
    let nine = constant(9);
    let Some(inside) = put_at(alloc, &mut circuit, &mut store, &load, &nine, &places)? else {
        return Ok(None);
    };
    let world = world_of(alloc, patterns)?;
    let words = store.cells.range(0, store.cells.len())?;
    let cells = patterns_in(alloc, &circuit, words.as_slice(), &world)?;
    Ok(Some((cells, circuit.value(inside, &world)?)))
}

#[test]
fn writes_to_elements(rt: HostRuntime) -> Result<(), Fail> {
    let alloc = rt.alloc();
    let (cells, inside) = written(alloc, &[2, 10, 11, 12, 13])?.ok_or("no place")?;
    assert_eq!(rt; cells.as_slice(), [2, 10, 11, 9, 13].as_slice());
    assert!(rt; inside);
    let (cells, inside) = written(alloc, &[4, 10, 11, 12, 13])?.ok_or("no place")?;
    assert_eq!(rt; cells.as_slice(), [4, 10, 11, 12, 13].as_slice());
    assert!(rt; !inside);
    Ok(())
}

// No operand, a place past the cells, and an operand of another kind.
#[test]
fn lists_of_no_expression(rt: HostRuntime) -> Result<(), Fail> {
    let lists: [&[Part]; 4] = [
        &[],
        &[Part::To(Kind::INT)],
        &[Part::Global(10, Kind::INT)],
        &[
            Part::Global(0, Kind::INT),
            Part::Number(1, Kind::LONG),
            Part::Two(BinaryOp::Add, Kind::INT),
        ],
    ];
    for parts in lists {
        assert_eq!(rt; first_wrong(rt.alloc(), parts, &PLACES, &[])?, 1);
    }
    Ok(())
}
