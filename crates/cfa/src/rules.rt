// Whether the expressions and places of a function meet the rules.
ghost use Rattle.std.specs.Prelude.{◌≡◌, ◌+◌, ◌^◌, ◌<◌, ◌&&◌, nat_le, slice_get};
ghost use Rattle.cfa.specs.Rules.{is_length, array_fits, place_fits, checked_kind, has_kind, kind_if, right_fits};

use crate::expr::{ArrayPlace, CellPlace, Expr};
use crate::parts::{Function, GraphParts};
use c_values::{BinaryOp, Kind, binary_kind, is_kind, is_shift, is_value, unary_kind};
use std::marker::Model;

/// What the places of a function may name: how many cells the globals and the function's frame have, and the lengths of
/// its array parameters.
#[derive(Drop)]
pub struct FunctionRoom<'a> {
    globals: usize,
    cells: u32,
    arrays: &'a [u32],
}

impl<'a> Model for FunctionRoom<'a> {
    ghost use Rattle.cfa.specs.Rules.{Room};

    ghost Value = { Room };

    ghost view = { λ r. record { globals = r.globals; cells = r.cells; arrays = r.arrays.now } };
}

impl<'a> FunctionRoom<'a> {
    ghost use Rattle.cfa.specs.Graph.{room_of};

    /// The room between so many cells of globals, so many of a frame, and array parameters of these lengths.
    pub fn new(globals: usize, cells: u32, arrays: &'a [u32]) -> FunctionRoom<'a>
        ensures { result ≡ record { globals = globals; cells = cells; arrays = arrays.now } }
    {
        FunctionRoom {
            globals,
            cells,
            arrays,
        }
    }

    pub(crate) fn of(parts: &'a GraphParts, function: &'a Function) -> FunctionRoom<'a>
        ensures { result ≡ room_of parts.now function.now }
    {
        FunctionRoom::new(parts.globals.len(), function.cells, &function.arrays)
    }

    /// Whether an array parameter has this length.
    pub(crate) fn has_length(&self, parameter: u32, length: u32) -> bool
        ensures { result ≡ is_length (slice_get self.now.arrays parameter) length }
    {
        match self.arrays.get(parameter as usize) {
            None => false,
            Some(own) => *own == length,
        }
    }

    /// Whether so many cells from the first on lie within the globals.
    pub(crate) fn has_globals(&self, first: u32, count: u64) -> bool
        requires { count < 2 ^ 32 }
        ensures { result ≡ nat_le (first + count) self.now.globals }
    {
        first as u64 + count <= self.globals as u64
    }

    /// Whether so many cells from the first on lie within the frame.
    pub(crate) fn has_locals(&self, first: u32, count: u64) -> bool
        requires { count < 2 ^ 32 }
        ensures { result ≡ nat_le (first + count) self.now.cells }
    {
        first as u64 + count <= self.cells as u64
    }

    /// Whether there are so many cells of globals, and so many in the frame.
    pub(crate) fn has_cells(&self, globals: u64, cells: u64) -> bool
        ensures { result ≡ (nat_le globals self.now.globals && nat_le cells self.now.cells) }
    {
        globals <= self.globals as u64 && cells <= self.cells as u64
    }
}

// An array of this length lies, whole, within the globals or the frame, or is an array parameter of this length.
pub(crate) fn array_fits(room: &FunctionRoom<'_>, place: ArrayPlace, length: u32) -> bool
    ensures { result ≡ array_fits room.now place length }
{
    match place {
        ArrayPlace::Global(first) => room.has_globals(first, length as u64),
        ArrayPlace::Local(first) => room.has_locals(first, length as u64),
        ArrayPlace::Lent(parameter) => room.has_length(parameter, length),
    }
}

#[cycle(rules)]
#[tactic(auto, using(crate::proofs::ExprLaws::expr_laws), unfolding(crate::specs::Rules::place_fits, crate::specs::Rules::checked_kind))]
pub(crate) fn place_fits(room: &FunctionRoom<'_>, place: &CellPlace) -> bool
    ensures { result ≡ place_fits room.now place.now }
{
    match place {
        CellPlace::Global(cell) => (*cell as usize) < room.globals,
        CellPlace::Local(cell) => *cell < room.cells,
        CellPlace::Element {
            array,
            index,
            length,
        } => { checked_kind(room, index).is_some() && array_fits(room, *array, *length) }
    }
}

pub(crate) fn has_kind(own: Option<Kind>, kind: Kind) -> bool
    ensures { result ≡ has_kind own kind }
{
    match own {
        None => false,
        Some(own) => own == kind,
    }
}

fn right_fits(op: BinaryOp, right: Option<Kind>, kind: Kind) -> bool
    ensures { result ≡ right_fits op right kind }
{
    if is_shift(op) {
        right.is_some()
    } else {
        has_kind(right, kind)
    }
}

fn kind_if(fits: bool, kind: Kind) -> Option<Kind>
    ensures { result ≡ kind_if fits kind }
{
    if fits { Some(kind) } else { None }
}

/// The kind of an expression's value where the expression meets the rules in this room, else none.
#[cycle(rules)]
#[tactic(auto, using(crate::proofs::ExprLaws::expr_laws), unfolding(crate::specs::Rules::place_fits, crate::specs::Rules::checked_kind))]
pub fn checked_kind(room: &FunctionRoom<'_>, expr: &Expr) -> Option<Kind>
    ensures { result ≡ checked_kind room.now expr.now }
{
    match expr {
        Expr::Constant(value, kind) => kind_if(is_value(*value, *kind), *kind),
        Expr::Load(place, kind) => {
            let fits = place_fits(room, place) && is_kind(*kind);
            kind_if(fits, *kind)
        }
        Expr::Convert(operand, kind) => {
            let fits = checked_kind(room, operand).is_some() && is_kind(*kind);
            kind_if(fits, *kind)
        }
        Expr::Unary(op, operand, kind) => {
            let fits = has_kind(checked_kind(room, operand), *kind);
            kind_if(fits, unary_kind(*op, *kind))
        }
        Expr::Binary(op, left, right, kind) => {
            let fits = has_kind(checked_kind(room, left), *kind)
                && right_fits(*op, checked_kind(room, right), *kind);
            kind_if(fits, binary_kind(*op, *kind))
        }
    }
}
