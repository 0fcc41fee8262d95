// What expressions weigh.
ghost use Rattle.std.specs.Prelude.{◌≡◌, ◌+◌, ◌<◌, IfSome};
ghost use Rattle.sym_expr.specs.Weights.{binary_weight, element_weight, place_weight, unary_weight, weight_of};

use c_values::{BinaryOp, UnaryOp};
use cfa::{CellPlace, Expr};

fn sum(a: u64, b: u64) -> Option<u64>
    ensures { IfSome result (λ n. n ≡ a + b) }
{
    a.checked_add(b)
}

fn unary_weight(op: UnaryOp, width: u8) -> u64
    ensures { result ≡ unary_weight op width }
{
    let width = width as u64;
    match op {
        UnaryOp::Neg => 8 * width,
        UnaryOp::Complement | UnaryOp::Not => 4 * width,
    }
}

fn binary_weight(op: BinaryOp, width: u8) -> u64
    ensures { result ≡ binary_weight op width }
{
    let width = width as u64;
    match op {
        BinaryOp::Mul => 8 * (width * width),
        BinaryOp::Div | BinaryOp::Rem => 16 * (width * width),
        BinaryOp::Shl | BinaryOp::Shr => 24 * width,
        BinaryOp::And | BinaryOp::Or | BinaryOp::Xor => 4 * width,
        _ => 8 * width,
    }
}

#[cycle(weights)]
#[tactic(auto, using(cfa::proofs::ExprLaws::expr_laws), unfolding(sym_expr::specs::Weights::weight_of, sym_expr::specs::Weights::place_weight))]
fn place_weight(place: &CellPlace, width: u8) -> Option<u64>
    ensures { IfSome result (λ n. n ≡ place_weight place.now width) }
{
    match place {
        CellPlace::Global(_) | CellPlace::Local(_) => Some(0),
        CellPlace::Element { index, length, .. } => {
            sum(weight(index)?, 4 * (width as u64 * *length as u64))
        }
    }
}

/// The weight of an expression, if it is below 2^64.
#[cycle(weights)]
#[tactic(auto, using(cfa::proofs::ExprLaws::expr_laws), unfolding(sym_expr::specs::Weights::weight_of, sym_expr::specs::Weights::place_weight))]
pub fn weight(expr: &Expr) -> Option<u64>
    ensures { IfSome result (λ n. n ≡ weight_of expr.now) }
{
    match expr {
        Expr::Constant(_, _) => Some(0),
        Expr::Load(place, kind) => place_weight(place, kind.width),
        Expr::Convert(operand, _) => weight(operand),
        Expr::Unary(op, operand, kind) => sum(weight(operand)?, unary_weight(*op, kind.width)),
        Expr::Binary(op, left, right, kind) => {
            let operands = sum(weight(left)?, weight(right)?)?;
            sum(operands, binary_weight(*op, kind.width))
        }
    }
}
