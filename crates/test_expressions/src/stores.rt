// Expressions over stores of inputs.
ghost use Rattle.std.specs.Prelude.{◌≡◌, ◌+◌, ◌*◌, ◌<◌, ◌≤◌, ◌^◌, [], ◌∷◌, All, IfOk, IfSome, OnSome, IsTrue, length};
ghost use Rattle.circuit.specs.Wires.{IsWire};
ghost use Rattle.cfa.specs.Rules.{expr_fits};
ghost use Rattle.test_expressions.specs.Rooms.{room_of};

use crate::weights::weight;
use bit_words::{Word, extended};
use cfa::{Expr, Frame, FunctionRoom, checked_kind};
use circuit::{Circuit, Lit, Memory};
use containers::Vector;
use containers::shared_tables::Table;
use std::alloc::Global;
use sym_expr::{SymStore, put, translate};
use test_words::free_word;

/// Where the cells lie that an expression may name.
#[derive(Clone, Copy)]
pub struct Places {
    /// How many cells there are.
    pub cells: u32,
    /// How many of them are globals, from the first cell on.
    pub globals: u32,
    /// The frame's first cell, and how many it has.
    pub base: u32,
    pub locals: u32,
    /// The first cell and the length of the one array that the frame is lent.
    pub lent: (u32, u32),
}

/// A store of so many cells, whose words are new inputs: the first 64 inputs are the first cell's.
pub fn free_store(alloc: Global, circuit: &mut Circuit, cells: u32) -> Result<SymStore, Memory>
    ensures { IfOk result (λ r. All (All (IsWire circuit.new)) r.cells) }
{
    let mut words = Table::new(alloc);
    for _ in 0..cells {
        if circuit.wires() > 1 << 29 {
            return Err(Memory);
        }
        let word = free_word(circuit)?;
        words.push(word)?;
    }
    Ok(SymStore { cells: words })
}

fn frame_of(alloc: Global, places: &Places) -> Result<Frame, Memory>
    ensures base { IfOk result (λ f. f.base ≡ places.now.base) }
    ensures arrays { IfOk result (λ f. f.arrays ≡ places.now.lent.0 ∷ []) }
{
    let mut arrays = Vector::new(alloc);
    arrays.push(places.lent.0)?;
    Ok(Frame {
        call: None,
        base: places.base,
        arrays,
    })
}

fn lie_within(places: &Places, count: usize) -> bool
    ensures globals { IsTrue result → places.now.globals ≤ count }
    ensures locals { IsTrue result → places.now.base + places.now.locals ≤ count }
    ensures lent { IsTrue result → places.now.lent.0 + places.now.lent.1 ≤ count }
{
    places.globals as usize <= count
        && places.base as usize + places.locals as usize <= count
        && places.lent.0 as usize + places.lent.1 as usize <= count
}

fn fits(places: &Places, expr: &Expr) -> bool
    ensures { IsTrue result → IsTrue (expr_fits (room_of places.now) expr.now) }
{
    let lengths = [places.lent.1];
    let room = FunctionRoom::new(places.globals as usize, places.locals, &lengths);
    checked_kind(&room, expr).is_some()
}

/// What [`translate`] answers, and none where its conditions on the expression and on the room for wires don't hold.
pub fn translated(
    alloc: Global,
    circuit: &mut Circuit,
    expr: &Expr,
    store: &SymStore,
    places: &Places,
) -> Result<Option<(Word, Lit)>, Memory>
    requires cells { All (All (IsWire circuit.old)) store.now.cells }
    ensures wires { IfOk result (λ o. IfSome o (λ r. All (IsWire circuit.new) r.0 × IsWire circuit.new r.1)) }
{
    let Some(weight) = weight(expr) else {
        return Ok(None);
    };
    if weight > 1 << 25 || circuit.wires() as u64 + 31 * weight > 1 << 30 {
        return Ok(None);
    }
    if !lie_within(places, store.cells.len()) || !fits(places, expr) {
        return Ok(None);
    }
    let frame = frame_of(alloc, places)?;
    let (word, fine) = translate(circuit, expr, store, &frame)?;
    Ok(Some((word, fine)))
}

/// What [`put`] answers of the place that an expression loads, where it puts what the load's kind has of a word, and none
/// where the expression is no load or the conditions on the place and on the room for wires don't hold.
pub fn put_at(
    alloc: Global,
    circuit: &mut Circuit,
    store: &mut SymStore,
    load: &Expr,
    word: &Word,
    places: &Places,
) -> Result<Option<Lit>, Memory>
    requires cells { All (All (IsWire circuit.old)) store.old.cells }
    requires word { All (IsWire circuit.old) word.now }
    ensures cells { IfOk result (λ o. OnSome o (All (All (IsWire circuit.new)) store.new.cells)) }
    ensures wire { IfOk result (λ o. IfSome o (λ c. IsWire circuit.new c)) }
{
    let Expr::Load(place, kind) = load else {
        return Ok(None);
    };
    let Some(weight) = weight(load) else {
        return Ok(None);
    };
    if weight > 1 << 25 || circuit.wires() as u64 + 31 * weight > 1 << 30 {
        return Ok(None);
    }
    if !lie_within(places, store.cells.len()) || !fits(places, load) {
        return Ok(None);
    }
    let frame = frame_of(alloc, places)?;
    let word = extended(word, *kind);
    let inside = put(circuit, store, place, &frame, &word, *kind)?;
    Ok(Some(inside))
}
