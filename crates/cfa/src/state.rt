// States of a run.
ghost use Rattle.std.specs.Prelude.{◌≡◌, IfOk};

use crate::expr::Expr;
use containers::{TryClone, Vector};
use fq_core::Name;
use std::alloc::{AllocError, Global};
use std::marker::Model;
use std::rc::Rc;

/// A call that hasn't returned yet.
#[derive(Debug, Drop)]
pub struct Frame {
    /// The call edge that it comes from, and none for the first frame.
    pub call: Option<u32>,
    /// The place of its first cell among all cells.
    pub base: u32,
    /// The place of the first cell of each array that it is lent, among all cells.
    pub arrays: Vector<u32>,
}

/// A located state: where control is, and what the cells hold.
#[derive(Debug, Drop)]
pub struct State {
    pub node: u32,
    /// The frames, the first one's call outermost; the last is the one that runs.
    pub frames: Vector<Frame>,
    /// The cells of the globals, and then those of each frame.
    pub cells: Vector<u64>,
    /// How many answers were taken.
    pub taken: u64,
}

/// What ends a run without a value.
#[derive(Clone, Copy, Debug, PartialEq, Eq)]
pub enum Trap {
    /// The divisor of a quotient or remainder is 0 (ISO/IEC 9899:2011, 6.5.5p5).
    ZeroDivisor,
    /// The least number of a signed kind is divided by -1 (6.5.5p6).
    OverflowDivisor,
    /// An element's index is outside the array (6.5.6p8).
    Index,
    /// A shift's amount is negative or not below the width (6.5.7p3).
    Shift,
    /// An assertion that doesn't hold (7.2.1.1).
    Assert,
}

/// An expression that several owners share, and contracts see as itself.
#[derive(Drop)]
pub struct SharedExpr {
    expr: Rc<Expr>,
}

impl Model for SharedExpr {
    ghost use Rattle.std.specs.Coded.{codes};
    ghost use Rattle.cfa.specs.contracts.expr.Expr as e;
    ghost use Rattle.cfa.specs.declared.expr.Expr.{Expr};

    ghost Value = { Expr };

    ghost coded = { Prim.hlevel (codes, e.the_row.coded) };

    ghost view = { λ it. it.expr.value };
}

impl SharedExpr {
    /// An expression, not shared yet.
    pub fn new(alloc: Global, expr: Expr) -> Result<SharedExpr, AllocError>
        ensures { IfOk result (λ shared. shared ≡ expr) }
    {
        let expr = Rc::new(alloc, expr)?;
        Ok(SharedExpr { expr })
    }

    /// The expression.
    pub fn expr(&self) -> &Expr
        ensures { result.now ≡ self.now }
    {
        &self.expr
    }
}

impl TryClone for SharedExpr {
    /// Another owner. It fails only where there are too many owners to be counted.
    fn try_clone(&self, _alloc: Global) -> Result<SharedExpr, AllocError> {
        let expr = self.expr.clone()?;
        Ok(SharedExpr { expr })
    }
}

/// The predicates of a query beside a graph.
#[derive(Drop)]
pub struct Predicates {
    /// The text of each.
    pub texts: Vector<Name>,
    /// By predicate and scope, its expression where it has a typing in that scope.
    pub meanings: Vector<Vector<Option<SharedExpr>>>,
}
