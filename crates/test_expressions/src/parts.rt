// Expressions as lists of parts.
use c_values::{BinaryOp, Kind, UnaryOp};
use cfa::{ArrayPlace, CellPlace, Expr};
use circuit::Memory;
use containers::Boxed;
use std::alloc::Global;

/// A part of an expression. Each follows its operands, which are the expressions before it that no other part has taken.
#[derive(Clone, Copy)]
pub enum Part {
    /// A constant, by the pattern of 64 bits that it is as a number with a sign.
    Number(i64, Kind),
    /// What a global or a local holds, by the cell's place.
    Global(u32, Kind),
    Local(u32, Kind),
    /// What an element holds of an array of so many elements. Its operand is the index.
    Element(ArrayPlace, u32, Kind),
    /// Its operand, converted.
    To(Kind),
    /// An operator with one operand of the kind, or with two.
    One(UnaryOp, Kind),
    Two(BinaryOp, Kind),
}

/// The expression that the parts make, and none where a part has too few operands, or where there is no part.
pub fn expression(alloc: Global, parts: &[Part]) -> Result<Option<Expr>, Memory> {
    let mut made = Vec::new(alloc);
    for part in parts {
        let Some(next) = joined(alloc, *part, &mut made)? else {
            return Ok(None);
        };
        made.push(next)?;
    }
    Ok(made.pop())
}

// A part with its operands, which are the last of those that were made.
fn joined(alloc: Global, part: Part, made: &mut Vec<Expr>) -> Result<Option<Expr>, Memory> {
    match part {
        Part::Number(value, kind) => Ok(Some(Expr::Constant(value.cast_unsigned(), kind))),
        Part::Global(cell, kind) => Ok(Some(Expr::Load(CellPlace::Global(cell), kind))),
        Part::Local(cell, kind) => Ok(Some(Expr::Load(CellPlace::Local(cell), kind))),
        Part::Two(op, kind) => {
            let Some(right) = made.pop() else {
                return Ok(None);
            };
            let Some(left) = made.pop() else {
                return Ok(None);
            };
            let left = Boxed::new(alloc, left)?;
            let right = Boxed::new(alloc, right)?;
            Ok(Some(Expr::Binary(op, left, right, kind)))
        }
        _ => match made.pop() {
            None => Ok(None),
            Some(operand) => with_operand(alloc, part, operand),
        },
    }
}

// A part with one operand.
fn with_operand(alloc: Global, part: Part, operand: Expr) -> Result<Option<Expr>, Memory> {
    let operand = Boxed::new(alloc, operand)?;
    match part {
        Part::Element(array, length, kind) => {
            let index = operand;
            let place = CellPlace::Element {
                array,
                index,
                length,
            };
            Ok(Some(Expr::Load(place, kind)))
        }
        Part::To(kind) => Ok(Some(Expr::Convert(operand, kind))),
        Part::One(op, kind) => Ok(Some(Expr::Unary(op, operand, kind))),
        _ => Ok(None),
    }
}

/// The parts of a sum of the first global, an int, and so many ones, from the left.
pub fn left_nested(alloc: Global, count: u32) -> Result<Vec<Part>, Memory> {
    let mut parts = Vec::new(alloc);
    parts.push(Part::Global(0, Kind::INT))?;
    for _ in 0..count {
        parts.push(Part::Number(1, Kind::INT))?;
        parts.push(Part::Two(BinaryOp::Add, Kind::INT))?;
    }
    Ok(parts)
}
