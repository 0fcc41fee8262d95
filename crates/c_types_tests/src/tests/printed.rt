// Typed trees as texts: operators stand before their operands, each with the kind of its value, and each place with its
// number, `g` for globals, `l` for cells of the frame and `a` for arrays that are lent.
use c_typed_trees::{
    Callee, TypedCall, TypedExpr, TypedExprForm, TypedForm, TypedFunction, TypedGroup, TypedPlace,
    TypedStatement,
};
use c_values::{BinaryOp, Kind, UnaryOp};
use cfa::{ArrayPlace, CellPlace, Expr, Variable, VariablePlace};
use fq_core::Name;
use std::fmt::Write;
use std::test::Fail;

fn mark_of(op: BinaryOp) -> &'static str {
    match op {
        BinaryOp::Add => "+",
        BinaryOp::Sub => "-",
        BinaryOp::Mul => "*",
        BinaryOp::Div => "/",
        BinaryOp::Rem => "%",
        BinaryOp::Shl => "<<",
        BinaryOp::Shr => ">>",
        BinaryOp::And => "&",
        BinaryOp::Or => "|",
        BinaryOp::Xor => "^",
        BinaryOp::Less => "<",
        BinaryOp::LessEqual => "<=",
        BinaryOp::Greater => ">",
        BinaryOp::GreaterEqual => ">=",
        BinaryOp::Equal => "==",
        BinaryOp::NotEqual => "!=",
    }
}

/// A name.
pub fn show_name(text: &mut String, name: &Name) -> Result<(), Fail> {
    for byte in name.bytes() {
        if *byte < 128 {
            text.push(*byte as char)?;
        }
    }
    Ok(())
}

fn show_kind(text: &mut String, kind: Kind) -> Result<(), Fail> {
    text.push_str(if kind.signed { "i" } else { "u" })?;
    write!(text, "{}", kind.width)?;
    Ok(())
}

/// A variable, with its place and its length.
pub fn show_variable(text: &mut String, variable: &Variable) -> Result<(), Fail> {
    show_name(text, &variable.name)?;
    match variable.place {
        VariablePlace::Global(cell) => write!(text, ".g{cell}")?,
        VariablePlace::Local(cell) => write!(text, ".l{cell}")?,
        VariablePlace::Lent(array) => write!(text, ".a{array}")?,
    }
    if let Some(length) = variable.length {
        write!(text, "x{length}")?;
    }
    Ok(())
}

// An operator with one operand.
fn sign_of(op: UnaryOp) -> &'static str {
    match op {
        UnaryOp::Neg => "-",
        UnaryOp::Complement => "~",
        UnaryOp::Not => "!",
    }
}

// What stands before the operands of a form.
fn show_head(text: &mut String, form: &TypedExprForm) -> Result<(), Fail> {
    match form {
        TypedExprForm::Constant(value) => write!(text, "{value}")?,
        TypedExprForm::Load(_) => {}
        TypedExprForm::Convert(_) => text.push_str("to")?,
        TypedExprForm::Unary(op, _) => text.push_str(sign_of(*op))?,
        TypedExprForm::Binary(op, _, _) => text.push_str(mark_of(*op))?,
        TypedExprForm::Both { cell, .. } => write!(text, "&&@{cell}")?,
        TypedExprForm::Either { cell, .. } => write!(text, "||@{cell}")?,
        TypedExprForm::Choice { cell, .. } => write!(text, "?@{cell}")?,
        TypedExprForm::Call(call) => write!(text, "call@{}", call.cell)?,
    }
    Ok(())
}

/// An expression: what it is, its parts in parentheses, and its kind.
#[cycle(show)]
pub fn show(text: &mut String, e: &TypedExpr) -> Result<(), Fail> {
    show_head(text, &e.form)?;
    match &e.form {
        TypedExprForm::Constant(_) => {}
        TypedExprForm::Load(place) => show_place(text, place)?,
        TypedExprForm::Convert(a) | TypedExprForm::Unary(_, a) => {
            show_part(text, "(", a)?;
            text.push_str(")")?;
        }
        TypedExprForm::Binary(_, a, b) => {
            show_part(text, "(", a)?;
            show_part(text, " ", b)?;
            text.push_str(")")?;
        }
        TypedExprForm::Both { left, right, .. } | TypedExprForm::Either { left, right, .. } => {
            show_part(text, "(", left)?;
            show_part(text, " ", right)?;
            text.push_str(")")?;
        }
        TypedExprForm::Choice { test, yes, no, .. } => {
            show_part(text, "(", test)?;
            show_part(text, " ", yes)?;
            show_part(text, " ", no)?;
            text.push_str(")")?;
        }
        TypedExprForm::Call(call) => show_call(text, call)?,
    }
    text.push_str(":")?;
    show_kind(text, e.kind)
}

#[cycle(show)]
fn show_part(text: &mut String, before: &str, part: &TypedExpr) -> Result<(), Fail> {
    text.push_str(before)?;
    show(text, part)
}

#[cycle(show)]
fn show_place(text: &mut String, place: &TypedPlace) -> Result<(), Fail> {
    show_variable(text, &place.variable)?;
    if let Some(index) = &place.index {
        text.push_str("[")?;
        show(text, index)?;
        text.push_str("]")?;
    }
    Ok(())
}

#[cycle(show)]
fn show_call(text: &mut String, call: &TypedCall) -> Result<(), Fail> {
    match call.callee {
        Callee::Defined(number) => write!(text, " f{number}(")?,
        Callee::Input(number) => write!(text, " in{number}(")?,
    }
    for word in call.words.iter() {
        show(text, word)?;
        text.push_str(",")?;
    }
    for array in call.arrays.iter() {
        show_variable(text, array)?;
        text.push_str(",")?;
    }
    text.push_str(")")?;
    Ok(())
}

fn show_assigned(
    text: &mut String,
    place: &TypedPlace,
    operator: Option<(BinaryOp, Kind)>,
    value: &TypedExpr,
) -> Result<(), Fail> {
    show_place(text, place)?;
    if let Some((op, kind)) = operator {
        write!(text, " {} in ", mark_of(op))?;
        show_kind(text, kind)?;
    }
    text.push_str(" = ")?;
    show(text, value)
}

fn show_option(text: &mut String, e: &Option<TypedExpr>) -> Result<(), Fail> {
    match e {
        None => text.push_str("-")?,
        Some(e) => show(text, e)?,
    }
    Ok(())
}

// Statements without statements in them.
fn show_simple(text: &mut String, form: &TypedForm) -> Result<(), Fail> {
    match form {
        TypedForm::Local { variable, first } => {
            text.push_str("local ")?;
            show_variable(text, variable)?;
            text.push_str(" ")?;
            show_option(text, first)
        }
        TypedForm::LocalArray { variable, list } => {
            text.push_str("array ")?;
            show_variable(text, variable)?;
            for value in list.iter() {
                text.push_str(" ")?;
                show(text, value)?;
            }
            Ok(())
        }
        TypedForm::Assign {
            place,
            operator,
            value,
        } => show_assigned(text, place, *operator, value),
        TypedForm::Call(call) => {
            write!(text, "call@{}", call.cell)?;
            show_call(text, call)
        }
        TypedForm::Return(value) => {
            text.push_str("return ")?;
            show_option(text, value)
        }
        TypedForm::Assert(test) => {
            text.push_str("assert ")?;
            show(text, test)
        }
        TypedForm::Assume(test) => {
            text.push_str("assume ")?;
            show(text, test)
        }
        TypedForm::Break => {
            text.push_str("break")?;
            Ok(())
        }
        TypedForm::Continue => {
            text.push_str("continue")?;
            Ok(())
        }
        _ => Ok(()),
    }
}

#[cycle(show_statement)]
fn show_list(text: &mut String, list: &[TypedStatement]) -> Result<(), Fail> {
    text.push_str("{")?;
    for one in list {
        show_statement(text, one)?;
    }
    text.push_str("}")?;
    Ok(())
}

#[cycle(show_statement)]
fn show_group(text: &mut String, group: &TypedGroup) -> Result<(), Fail> {
    for (_span, value) in group.labels.iter() {
        match value {
            None => text.push_str("default: ")?,
            Some(value) => write!(text, "case {value}: ")?,
        }
    }
    show_list(text, group.body.as_slice())
}

/// A statement, and a semicolon.
#[cycle(show_statement)]
pub fn show_statement(text: &mut String, statement: &TypedStatement) -> Result<(), Fail> {
    match &statement.form {
        TypedForm::Block(list) => show_list(text, list.as_slice())?,
        TypedForm::Label { name, body } => {
            show_name(text, name)?;
            text.push_str(": ")?;
            show_statement(text, body)?;
        }
        TypedForm::If { arms, otherwise } => {
            for (test, body) in arms.iter() {
                text.push_str("if ")?;
                show(text, test)?;
                text.push_str(" ")?;
                show_statement(text, body)?;
            }
            if let Some(last) = otherwise {
                text.push_str("else ")?;
                show_statement(text, last)?;
            }
        }
        TypedForm::While { test, body } => {
            text.push_str("while ")?;
            show(text, test)?;
            text.push_str(" ")?;
            show_statement(text, body)?;
        }
        TypedForm::Do { body, test } => {
            text.push_str("do ")?;
            show_statement(text, body)?;
            text.push_str("while ")?;
            show(text, test)?;
        }
        TypedForm::For {
            first,
            test,
            next,
            body,
        } => {
            text.push_str("for ")?;
            show_list(text, first.as_slice())?;
            show_option(text, test)?;
            if let Some(next) = next {
                text.push_str(" ")?;
                show_statement(text, next)?;
            }
            text.push_str(" ")?;
            show_statement(text, body)?;
        }
        TypedForm::Switch {
            value,
            cell,
            groups,
        } => {
            write!(text, "switch@{cell} ")?;
            show(text, value)?;
            text.push_str(" ")?;
            for group in groups.iter() {
                show_group(text, group)?;
            }
        }
        form => show_simple(text, form)?,
    }
    text.push_str(";")?;
    Ok(())
}

/// A function: its name, its parameters, its cells and its body.
pub fn show_function(text: &mut String, function: &TypedFunction) -> Result<(), Fail> {
    show_name(text, &function.name)?;
    text.push_str("(")?;
    for parameter in function.parameters.iter() {
        show_variable(text, parameter)?;
        text.push_str(",")?;
    }
    write!(text, ") {} ", function.cells)?;
    show_list(text, function.body.as_slice())
}

// A cell of the store; an element with its array's place and length, and its index.
#[cycle(show_expr)]
fn show_cell(text: &mut String, place: &CellPlace) -> Result<(), Fail> {
    match place {
        CellPlace::Global(cell) => write!(text, "g{cell}")?,
        CellPlace::Local(cell) => write!(text, "l{cell}")?,
        CellPlace::Element {
            array,
            index,
            length,
        } => {
            match array {
                ArrayPlace::Global(first) => write!(text, "g{first}x{length}[")?,
                ArrayPlace::Local(first) => write!(text, "l{first}x{length}[")?,
                ArrayPlace::Lent(number) => write!(text, "a{number}x{length}[")?,
            }
            show_expr(text, index)?;
            text.push_str("]")?;
        }
    }
    Ok(())
}

/// An expression of the automaton: each operator with the kind in which it is done.
#[cycle(show_expr)]
pub fn show_expr(text: &mut String, e: &Expr) -> Result<(), Fail> {
    let kind = match e {
        Expr::Constant(value, kind) => {
            write!(text, "{value}")?;
            *kind
        }
        Expr::Load(place, kind) => {
            show_cell(text, place)?;
            *kind
        }
        Expr::Convert(a, kind) => {
            text.push_str("to(")?;
            show_expr(text, a)?;
            text.push_str(")")?;
            *kind
        }
        Expr::Unary(op, a, kind) => {
            text.push_str(sign_of(*op))?;
            text.push_str("(")?;
            show_expr(text, a)?;
            text.push_str(")")?;
            *kind
        }
        Expr::Binary(op, a, b, kind) => {
            text.push_str(mark_of(*op))?;
            text.push_str("(")?;
            show_expr(text, a)?;
            text.push_str(" ")?;
            show_expr(text, b)?;
            text.push_str(")")?;
            *kind
        }
    };
    text.push_str(":")?;
    show_kind(text, kind)
}
