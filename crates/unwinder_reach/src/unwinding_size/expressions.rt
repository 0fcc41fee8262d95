// What expressions and places weigh.
ghost use Rattle.std.specs.Prelude.{◌≡◌, sum_by};
ghost use Rattle.sym_expr.specs.Weights.{binary_weight, element_weight, place_weight, unary_weight, weight_of};
ghost use Rattle.unwinder_reach.specs.unwinding_size.Capped.{capped};

use crate::unwinding_size::capped::{cap, sum};
use c_values::{BinaryOp, UnaryOp};
use cfa::{CellPlace, Expr};

fn unary_weight(op: UnaryOp, width: u8) -> u64
    ensures { result ≡ unary_weight op width }
{
    let width = width as u64;
    match op {
        UnaryOp::Neg => 8 * width,
        UnaryOp::Complement | UnaryOp::Not => 4 * width,
    }
}

fn binary_weight(op: BinaryOp, width: u8) -> u64
    ensures { result ≡ binary_weight op width }
{
    let width = width as u64;
    match op {
        BinaryOp::Mul => 8 * (width * width),
        BinaryOp::Div | BinaryOp::Rem => 16 * (width * width),
        BinaryOp::Shl | BinaryOp::Shr => 24 * width,
        BinaryOp::And | BinaryOp::Or | BinaryOp::Xor => 4 * width,
        _ => 8 * width,
    }
}

fn element_weight(length: u32, width: u8) -> u64
    ensures { result ≡ element_weight length width }
{
    4 * (width as u64 * length as u64)
}

/// The weight of a place where a value of a width is read or put.
#[cycle(weights)]
#[tactic(auto, using(cfa::proofs::ExprLaws::expr_laws, crate::proofs::unwinding_size::CappedLaws::capped_sums), unfolding(sym_expr::specs::Weights::weight_of, sym_expr::specs::Weights::place_weight))]
pub(crate) fn place_weight(place: &CellPlace, width: u8) -> u64
    ensures { result ≡ capped (place_weight place.now width) }
{
    match place {
        CellPlace::Global(_) | CellPlace::Local(_) => 0,
        CellPlace::Element { index, length, .. } => {
            sum(weight(index), element_weight(*length, width))
        }
    }
}

/// The weight of an expression.
#[cycle(weights)]
#[tactic(auto, using(cfa::proofs::ExprLaws::expr_laws, crate::proofs::unwinding_size::CappedLaws::capped_sums), unfolding(sym_expr::specs::Weights::weight_of, sym_expr::specs::Weights::place_weight))]
pub(crate) fn weight(expr: &Expr) -> u64
    ensures { result ≡ capped (weight_of expr.now) }
{
    match expr {
        Expr::Constant(_, _) => 0,
        Expr::Load(place, kind) => place_weight(place, kind.width),
        Expr::Convert(operand, _) => weight(operand),
        Expr::Unary(op, operand, kind) => sum(weight(operand), unary_weight(*op, kind.width)),
        Expr::Binary(op, left, right, kind) => {
            let operands = sum(weight(left), weight(right));
            sum(operands, binary_weight(*op, kind.width))
        }
    }
}

/// The weight of all expressions of a list.
#[tactic(auto, unfolding(crate::specs::unwinding_size::Capped::capped))]
pub(crate) fn weights(exprs: &[Expr]) -> u64
    ensures { result ≡ capped (sum_by weight_of exprs.now) }
{
    let mut total = 0;
    for expr in exprs {
        total = sum(total, weight(expr));
    }
    total
}
