// The values of constant expressions.
ghost use Rattle.std.specs.Prelude.{◌≡◌, ◌&&◌, ◌||◌};
ghost use Rattle.c_values.specs.Operations.{is_shift};
ghost use Rattle.c_type_rules.specs.Constants.{folded, varies, value_if_any, truth_folded, converted_folded, unary_folded, is_operation, binary_folded, both_folded, either_folded, choice_folded};

use c_typed_trees::{TypedExpr, TypedExprForm};
use c_values::{
    BinaryOp, Kind, UnaryOp, binary_value, convert, is_kind, is_shift, is_value, unary_value,
};

/// What an expression is as a constant (ISO/IEC 9899:2011, 6.6).
#[derive(Clone, Copy, Debug, PartialEq, Eq)]
pub enum Folded {
    /// A variable, an element or a call stands in it.
    Varying,
    /// It has no value, as where the divisor is 0.
    Undefined,
    /// Its value, as one of its kind.
    Value(u64),
}

fn varies(a: Folded) -> bool
    ensures { result ≡ varies a }
{
    match a {
        Folded::Varying => true,
        Folded::Undefined | Folded::Value(_) => false,
    }
}

fn converted_folded(from: Kind, to: Kind, a: Folded) -> Folded
    ensures { result ≡ converted_folded from to a }
{
    match a {
        Folded::Value(v) => {
            if is_value(v, from) && is_kind(to) {
                Folded::Value(convert(v, from, to))
            } else {
                Folded::Undefined
            }
        }
        Folded::Varying | Folded::Undefined => a,
    }
}

fn unary_folded(op: UnaryOp, kind: Kind, a: Folded) -> Folded
    ensures { result ≡ unary_folded op kind a }
{
    match a {
        Folded::Value(v) => {
            if is_value(v, kind) {
                Folded::Value(unary_value(op, v, kind))
            } else {
                Folded::Undefined
            }
        }
        Folded::Varying | Folded::Undefined => a,
    }
}

fn value_if_any(value: Option<u64>) -> Folded
    ensures { result ≡ value_if_any value }
{
    match value {
        None => Folded::Undefined,
        Some(v) => Folded::Value(v),
    }
}

fn is_operation(op: BinaryOp, kind: Kind, right: Kind, v: u64, w: u64) -> bool
    ensures { result ≡ is_operation op kind right v w }
{
    is_value(v, kind) && is_value(w, right) && (is_shift(op) || right == kind)
}

#[tactic(auto, using(crate::proofs::ConstantLaws::operation_laws))]
fn binary_folded(op: BinaryOp, kind: Kind, right: Kind, a: Folded, b: Folded) -> Folded
    ensures { result ≡ binary_folded op kind right a b }
{
    match (a, b) {
        (Folded::Varying, _) | (_, Folded::Varying) => Folded::Varying,
        (Folded::Undefined, _) | (_, Folded::Undefined) => Folded::Undefined,
        (Folded::Value(v), Folded::Value(w)) => {
            if is_operation(op, kind, right, v, w) {
                value_if_any(binary_value(op, v, kind, w, right))
            } else {
                Folded::Undefined
            }
        }
    }
}

fn truth(a: Folded) -> Folded
    ensures { result ≡ truth_folded a }
{
    match a {
        Folded::Value(v) => Folded::Value(u64::from(v != 0)),
        Folded::Varying | Folded::Undefined => a,
    }
}

fn both_folded(a: Folded, b: Folded) -> Folded
    ensures { result ≡ both_folded a b }
{
    if varies(a) || varies(b) {
        return Folded::Varying;
    }
    match a {
        Folded::Value(0) => Folded::Value(0),
        Folded::Value(_) => truth(b),
        Folded::Varying | Folded::Undefined => a,
    }
}

fn either_folded(a: Folded, b: Folded) -> Folded
    ensures { result ≡ either_folded a b }
{
    if varies(a) || varies(b) {
        return Folded::Varying;
    }
    match a {
        Folded::Value(0) => truth(b),
        Folded::Value(_) => Folded::Value(1),
        Folded::Varying | Folded::Undefined => a,
    }
}

fn choice_folded(a: Folded, b: Folded, c: Folded) -> Folded
    ensures { result ≡ choice_folded a b c }
{
    if varies(a) || varies(b) || varies(c) {
        return Folded::Varying;
    }
    match a {
        Folded::Value(0) => c,
        Folded::Value(_) => b,
        Folded::Varying | Folded::Undefined => a,
    }
}

/// What an expression is as a constant.
#[tactic(auto, using(crate::proofs::ConstantLaws::fold_laws))]
pub(crate) fn constant_value(e: &TypedExpr) -> Folded
    ensures { result ≡ folded e.now }
{
    match &e.form {
        TypedExprForm::Constant(v) => Folded::Value(*v),
        TypedExprForm::Load(_) | TypedExprForm::Call(_) => Folded::Varying,
        TypedExprForm::Convert(a) => converted_folded(a.kind, e.kind, constant_value(a)),
        TypedExprForm::Unary(op, a) => unary_folded(*op, a.kind, constant_value(a)),
        TypedExprForm::Binary(op, a, b) => {
            let left = constant_value(a);
            binary_folded(*op, a.kind, b.kind, left, constant_value(b))
        }
        TypedExprForm::Both {
            left,
            right,
            cell: _,
        } => {
            let first = constant_value(left);
            both_folded(first, constant_value(right))
        }
        TypedExprForm::Either {
            left,
            right,
            cell: _,
        } => {
            let first = constant_value(left);
            either_folded(first, constant_value(right))
        }
        TypedExprForm::Choice {
            test,
            yes,
            no,
            cell: _,
        } => {
            let test = constant_value(test);
            let yes = constant_value(yes);
            choice_folded(test, yes, constant_value(no))
        }
    }
}
