// The kinds of operands and results.
ghost use Rattle.std.specs.Prelude.{◌≡◌};
ghost use Rattle.c_type_rules.specs.Kinds.{promotion, meeting, operand_kind, left_kind, right_kind};

use c_values::{BinaryOp, Kind, UnaryOp, common, is_kind, is_shift, promoted};

#[tactic(auto, unfolding(crate::specs::Kinds::promotion))]
pub fn promotion(kind: Kind) -> Kind
    ensures { result ≡ promotion kind }
{
    if is_kind(kind) { promoted(kind) } else { kind }
}

#[tactic(auto, unfolding(crate::specs::Kinds::meeting))]
pub fn meeting(a: Kind, b: Kind) -> Kind
    ensures { result ≡ meeting a b }
{
    if is_kind(a) && is_kind(b) {
        common(a, b)
    } else {
        a
    }
}

pub fn operand_kind(op: UnaryOp, kind: Kind) -> Kind
    ensures { result ≡ operand_kind op kind }
{
    match op {
        UnaryOp::Not => kind,
        UnaryOp::Neg | UnaryOp::Complement => promotion(kind),
    }
}

pub fn left_kind(op: BinaryOp, a: Kind, b: Kind) -> Kind
    ensures { result ≡ left_kind op a b }
{
    if is_shift(op) {
        promotion(a)
    } else {
        meeting(a, b)
    }
}

pub fn right_kind(op: BinaryOp, a: Kind, b: Kind) -> Kind
    ensures { result ≡ right_kind op a b }
{
    if is_shift(op) {
        promotion(b)
    } else {
        meeting(a, b)
    }
}
