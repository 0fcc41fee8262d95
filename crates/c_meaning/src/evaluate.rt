// The values of expressions in a state.
ghost use Rattle.std.specs.Prelude.{◌≡◌, false, IsTrue, IfOk, IfSome, Ok, ok_or, pos, slice_index};
ghost use Rattle.c_values.specs.Kind.{IsKind, IsValue, converted, wrapped};
ghost use Rattle.c_values.specs.Operations.{unary_value, binary_value, is_shift};
ghost use Rattle.cfa.specs.Rules.{expr_fits, place_fits, array_fits};
ghost use Rattle.cfa.specs.Values.{after_value, element_at, cell_of, value_of, divisor_trap, operator_trap};
ghost use Rattle.c_meaning.specs.Storage.{HasRoom};

use crate::store::Store;
use c_values::{BinaryOp, Kind, UnaryOp, binary_value, convert, is_zero_divisor, unary_value};
use cfa::{ArrayPlace, CellPlace, Expr, Trap};

/// What a kind has of a word of 64 bits.
pub(crate) fn fitted(word: u64, kind: Kind) -> u64
    requires { IsKind kind }
    ensures { result ≡ wrapped kind (pos word) }
{
    convert(word, Kind::UNSIGNED_LONG, kind)
}

fn divisor_trap(divisor: u64, kind: Kind) -> Trap
    requires { IsValue kind divisor }
    ensures { result ≡ divisor_trap kind divisor }
{
    if is_zero_divisor(divisor, kind) {
        Trap::ZeroDivisor
    } else {
        Trap::OverflowDivisor
    }
}

// Why an operator has no value. Of those that are no shifts, both operands have one kind.
fn operator_trap(op: BinaryOp, kind: Kind, right: u64) -> Trap
    requires { is_shift op ≡ false → IsValue kind right }
    ensures { result ≡ operator_trap op kind right }
{
    match op {
        BinaryOp::Div | BinaryOp::Rem => divisor_trap(right, kind),
        _ => Trap::Shift,
    }
}

// What a cell holds, as a value of a kind.
fn loaded(store: &Store<'_>, cell: Result<usize, Trap>, kind: Kind) -> Result<u64, Trap>
    requires { IsKind kind }
    ensures { result ≡ after_value cell (λ c. Ok (wrapped kind (pos (slice_index store.now.cells c)))) }
{
    match cell {
        Ok(cell) => Ok(fitted(store.at(cell), kind)),
        Err(trap) => Err(trap),
    }
}

// A value in another kind.
fn converted(operand: Result<u64, Trap>, from: Kind, to: Kind) -> Result<u64, Trap>
    requires operand { IfOk operand (λ a. IsValue from a) }
    requires target { IsKind to }
    ensures { result ≡ after_value operand (λ a. Ok (converted from to a)) }
{
    match operand {
        Ok(value) => Ok(convert(value, from, to)),
        Err(trap) => Err(trap),
    }
}

// The value of an operator with one operand.
fn unary_outcome(op: UnaryOp, operand: Result<u64, Trap>, kind: Kind) -> Result<u64, Trap>
    requires { IfOk operand (λ a. IsValue kind a) }
    ensures { result ≡ after_value operand (λ a. Ok (unary_value op kind a)) }
{
    match operand {
        Ok(value) => Ok(unary_value(op, value, kind)),
        Err(trap) => Err(trap),
    }
}

// The value of an operator with two operands, or why there is none.
fn operator_outcome(
    op: BinaryOp,
    left: u64,
    kind: Kind,
    right: u64,
    right_kind: Kind,
) -> Result<u64, Trap>
    requires left { IsValue kind left }
    requires right { IsValue right_kind right }
    requires same { is_shift op ≡ false → right_kind ≡ kind }
    ensures { result ≡ ok_or (binary_value op kind right_kind left right) (operator_trap op kind right) }
{
    match binary_value(op, left, kind, right, right_kind) {
        Some(value) => Ok(value),
        None => Err(operator_trap(op, kind, right)),
    }
}

// The same of what the operands come to: the first trap counts.
fn binary_outcome(
    op: BinaryOp,
    left: Result<u64, Trap>,
    kind: Kind,
    right: Result<u64, Trap>,
    right_kind: Kind,
) -> Result<u64, Trap>
    requires left { IfOk left (λ a. IsValue kind a) }
    requires right { IfOk right (λ b. IsValue right_kind b) }
    requires same { is_shift op ≡ false → right_kind ≡ kind }
    ensures { result ≡ after_value left (λ a. after_value right (λ b. ok_or (binary_value op kind right_kind a b) (operator_trap op kind b))) }
{
    match (left, right) {
        (Ok(first), Ok(second)) => operator_outcome(op, first, kind, second, right_kind),
        (Ok(_first), Err(trap)) => Err(trap),
        (Err(trap), _right) => Err(trap),
    }
}

// The place of an array's element, or the trap of its index.
fn element_at(
    store: &Store<'_>,
    array: ArrayPlace,
    count: u32,
    index: Result<u64, Trap>,
    kind: Kind,
) -> Result<usize, Trap>
    requires room { HasRoom store.now }
    requires array { IsTrue (array_fits store.now.room array count) }
    requires index { IfOk index (λ i. IsValue kind i) }
    ensures { result ≡ after_value index (λ i. element_at store.now.cells store.now.frame array count kind i) }
{
    match index {
        Ok(index) if index < count as u64 => Ok(store.array_start(array) + index as usize),
        Ok(_index) => Err(Trap::Index),
        Err(trap) => Err(trap),
    }
}

/// The cell of a place that is no element.
fn direct_cell(store: &Store<'_>, place: &CellPlace) -> Option<usize>
    requires room { HasRoom store.now }
    requires fits { IsTrue (place_fits store.now.room place.now) }
    ensures { IfSome result (λ cell. cell_of store.now.cells store.now.frame place.now ≡ Ok cell) }
{
    match place {
        CellPlace::Global(cell) => Some(*cell as usize),
        CellPlace::Local(cell) => Some(store.base() + *cell as usize),
        CellPlace::Element { .. } => None,
    }
}

/// The value of a constant, or of a cell that is no element.
fn leaf_value(store: &Store<'_>, expr: &Expr) -> Option<u64>
    requires room { HasRoom store.now }
    requires fits { IsTrue (expr_fits store.now.room expr.now) }
    ensures { IfSome result (λ value. value_of store.now.cells store.now.frame expr.now ≡ Ok value) }
{
    match expr {
        Expr::Constant(value, _kind) => Some(*value),
        Expr::Load(place, kind) => match direct_cell(store, place) {
            Some(cell) => Some(fitted(store.at(cell), *kind)),
            None => None,
        },
        _ => None,
    }
}

/// The cell that a place names among all cells, or the trap of its index.
#[cycle(evaluate)]
pub(crate) fn cell_of(store: &Store<'_>, place: &CellPlace) -> Result<usize, Trap>
    requires room { HasRoom store.now }
    requires fits { IsTrue (place_fits store.now.room place.now) }
    ensures { result ≡ cell_of store.now.cells store.now.frame place.now }
{
    match direct_cell(store, place) {
        Some(cell) => Ok(cell),
        None => indexed_cell(store, place),
    }
}

/// The value of a part of an expression, or the trap that ends its evaluation. Most parts are leaves, which take no further
/// call.
#[cycle(evaluate)]
fn operand_value(store: &Store<'_>, expr: &Expr) -> Result<u64, Trap>
    requires room { HasRoom store.now }
    requires fits { IsTrue (expr_fits store.now.room expr.now) }
    ensures { result ≡ value_of store.now.cells store.now.frame expr.now }
{
    match leaf_value(store, expr) {
        Some(value) => Ok(value),
        None => value_of(store, expr),
    }
}

/// The cell of a place, by its index where it is an element.
#[cycle(evaluate)]
fn indexed_cell(store: &Store<'_>, place: &CellPlace) -> Result<usize, Trap>
    requires room { HasRoom store.now }
    requires fits { IsTrue (place_fits store.now.room place.now) }
    ensures { result ≡ cell_of store.now.cells store.now.frame place.now }
{
    match place {
        CellPlace::Global(cell) => Ok(*cell as usize),
        CellPlace::Local(cell) => Ok(store.base() + *cell as usize),
        CellPlace::Element {
            array,
            index,
            length,
        } => element_at(
            store,
            *array,
            *length,
            operand_value(store, index),
            index.kind(),
        ),
    }
}

/// The value of an expression, or the trap that ends its evaluation: the left operand goes first.
#[cycle(evaluate)]
pub(crate) fn value_of(store: &Store<'_>, expr: &Expr) -> Result<u64, Trap>
    requires room { HasRoom store.now }
    requires fits { IsTrue (expr_fits store.now.room expr.now) }
    ensures { result ≡ value_of store.now.cells store.now.frame expr.now }
{
    match expr {
        Expr::Constant(value, _kind) => Ok(*value),
        Expr::Load(place, kind) => loaded(store, cell_of(store, place), *kind),
        Expr::Convert(operand, kind) => converted(
            operand_value(store, operand),
            operand.kind(),
            *kind,
        ),
        Expr::Unary(op, operand, kind) => unary_outcome(*op, operand_value(store, operand), *kind),
        Expr::Binary(op, left, right, kind) => binary_outcome(
            *op,
            operand_value(store, left),
            *kind,
            operand_value(store, right),
            right.kind(),
        ),
    }
}
