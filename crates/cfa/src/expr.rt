// Expressions without side effects, and the places of cells.
ghost use Rattle.std.specs.Prelude.{◌≡◌, ◌↔◌, IsTrue, IfOk};
ghost use Rattle.cfa.specs.Kinds.{kind_of};

use c_values::{BinaryOp, Kind, UnaryOp, binary_kind, unary_kind};
use containers::{Boxed, Same, TryClone};
use std::alloc::{AllocError, Global};

/// The first cell of an array.
#[derive(Clone, Copy, Debug, PartialEq, Eq)]
pub enum ArrayPlace {
    /// The place of its first cell among the globals, from 0.
    Global(u32),
    /// The place of its first cell in the frame, from 0.
    Local(u32),
    /// An array that the caller lends, by its place among the function's array parameters, from 0.
    Lent(u32),
}

/// A cell of the store.
#[cycle(expr)]
#[derive(Drop)]
pub enum CellPlace {
    /// By its place among the globals, from 0.
    Global(u32),
    /// By its place in the frame, from 0.
    Local(u32),
    /// An element of an array of `length` elements (ISO/IEC 9899:2011, 6.5.2.1).
    Element {
        array: ArrayPlace,
        index: Boxed<Expr>,
        length: u32,
    },
}

/// An expression that is evaluated in one state and changes none.
#[cycle(expr)]
pub enum Expr {
    /// A value of a kind, as `c_values` keeps it.
    Constant(u64, Kind),
    /// What a cell holds, as a value of the kind.
    Load(CellPlace, Kind),
    /// The value of the operand, converted to the kind (6.3.1.3).
    Convert(Boxed<Expr>, Kind),
    /// An operator on an operand of the kind (6.5.3.3). `Not` gives int, the others the kind.
    Unary(UnaryOp, Boxed<Expr>, Kind),
    /// An operator on two operands of the kind; the right operand of a shift has a kind of its own. A comparison
    /// gives int, the others the kind (6.5.5 to 6.5.12).
    Binary(BinaryOp, Boxed<Expr>, Boxed<Expr>, Kind),
}

// A function of its own, so that what holds expressions doesn't drop each form in place.
impl Drop for Expr {
    #[cycle(expr_drop)]
    fn drop(self) {
        match self {
            Expr::Constant(_, _) => {}
            Expr::Load(_place, _) => {}
            Expr::Convert(_operand, _) => {}
            Expr::Unary(_, _operand, _) => {}
            Expr::Binary(_, _left, _right, _) => {}
        }
    }
}

impl Expr {
    /// The kind of the value.
    pub fn kind(&self) -> Kind
        ensures { result ≡ kind_of self.now }
    {
        match self {
            Expr::Constant(_, kind) | Expr::Load(_, kind) | Expr::Convert(_, kind) => *kind,
            Expr::Unary(op, _, kind) => unary_kind(*op, *kind),
            Expr::Binary(op, _, _, kind) => binary_kind(*op, *kind),
        }
    }
}

impl Same for ArrayPlace {
    fn same(&self, other: &ArrayPlace) -> bool {
        *self == *other
    }
}

fn same_unary(a: (UnaryOp, Kind), b: (UnaryOp, Kind)) -> bool
    ensures { IsTrue result ↔ ((a.0 ≡ b.0) × (a.1 ≡ b.1)) }
{
    a.0 == b.0 && a.1 == b.1
}

fn same_binary(a: (BinaryOp, Kind), b: (BinaryOp, Kind)) -> bool
    ensures { IsTrue result ↔ ((a.0 ≡ b.0) × (a.1 ≡ b.1)) }
{
    a.0 == b.0 && a.1 == b.1
}

#[cycle(same)]
fn same_place(place: &CellPlace, other: &CellPlace) -> bool
    ensures { IsTrue result ↔ (place.now ≡ other.now) }
{
    match (place, other) {
        (CellPlace::Global(a), CellPlace::Global(b)) => a == b,
        (CellPlace::Local(a), CellPlace::Local(b)) => a == b,
        (
            CellPlace::Element {
                array: a,
                index: i,
                length: m,
            },
            CellPlace::Element {
                array: b,
                index: j,
                length: n,
            },
        ) => a == b && m == n && same_expr(i, j),
        _ => false,
    }
}

#[cycle(same)]
fn same_expr(expr: &Expr, other: &Expr) -> bool
    ensures { IsTrue result ↔ (expr.now ≡ other.now) }
{
    match (expr, other) {
        (Expr::Constant(a, k), Expr::Constant(b, l)) => a == b && k == l,
        (Expr::Load(a, k), Expr::Load(b, l)) => k == l && same_place(a, b),
        (Expr::Convert(a, k), Expr::Convert(b, l)) => k == l && same_expr(a, b),
        (Expr::Unary(o, a, k), Expr::Unary(p, b, l)) => {
            same_unary((*o, *k), (*p, *l)) && same_expr(a, b)
        }
        (Expr::Binary(o, a, b, k), Expr::Binary(p, c, d, l)) => {
            same_binary((*o, *k), (*p, *l)) && same_expr(a, c) && same_expr(b, d)
        }
        _ => false,
    }
}

impl Same for CellPlace {
    fn same(&self, other: &CellPlace) -> bool {
        same_place(self, other)
    }
}

impl Same for Expr {
    fn same(&self, other: &Expr) -> bool {
        same_expr(self, other)
    }
}

#[cycle(try_clone)]
fn boxed(alloc: Global, expr: &Expr) -> Result<Boxed<Expr>, AllocError>
    ensures { IfOk result (λ copy. copy ≡ expr.now) }
{
    Boxed::new(alloc, expr.try_clone(alloc)?)
}

impl TryClone for CellPlace {
    #[cycle(try_clone)]
    fn try_clone(&self, alloc: Global) -> Result<CellPlace, AllocError> {
        match self {
            CellPlace::Global(cell) => Ok(CellPlace::Global(*cell)),
            CellPlace::Local(cell) => Ok(CellPlace::Local(*cell)),
            CellPlace::Element {
                array,
                index,
                length,
            } => Ok(CellPlace::Element {
                array: *array,
                index: boxed(alloc, index)?,
                length: *length,
            }),
        }
    }
}

impl TryClone for Expr {
    #[cycle(try_clone)]
    fn try_clone(&self, alloc: Global) -> Result<Expr, AllocError> {
        match self {
            Expr::Constant(value, kind) => Ok(Expr::Constant(*value, *kind)),
            Expr::Load(place, kind) => Ok(Expr::Load(place.try_clone(alloc)?, *kind)),
            Expr::Convert(operand, kind) => Ok(Expr::Convert(boxed(alloc, operand)?, *kind)),
            Expr::Unary(op, operand, kind) => {
                Ok(Expr::Unary(*op, boxed(alloc, operand)?, *kind))
            }
            Expr::Binary(op, left, right, kind) => Ok(Expr::Binary(
                *op,
                boxed(alloc, left)?,
                boxed(alloc, right)?,
                *kind,
            )),
        }
    }
}
