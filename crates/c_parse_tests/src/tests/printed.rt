// Trees as texts: each form in braces, with the column of its first token before it.
use c_parse::{
    CaseLabel, Declarator, ExprForm, ExprTree, Form, Group, Ident, Initial, Item, Parameter,
    PlaceTree, Statement,
};
use c_values::{BinaryOp, Kind, UnaryOp};
use fq_core::Name;
use std::fmt::Write;
use std::test::Fail;

fn symbol_of(op: BinaryOp) -> &'static str {
    match op {
        BinaryOp::Add => "+",
        BinaryOp::Sub => "-",
        BinaryOp::Mul => "*",
        BinaryOp::Div => "/",
        BinaryOp::Rem => "%",
        BinaryOp::Shl => "<<",
        BinaryOp::Shr => ">>",
        BinaryOp::And => "&",
        BinaryOp::Or => "|",
        BinaryOp::Xor => "^",
        BinaryOp::Less => "<",
        BinaryOp::LessEqual => "<=",
        BinaryOp::Greater => ">",
        BinaryOp::GreaterEqual => ">=",
        BinaryOp::Equal => "==",
        BinaryOp::NotEqual => "!=",
    }
}

fn show_name(text: &mut String, name: &Name) -> Result<(), Fail> {
    for byte in name.bytes() {
        if *byte < 128 {
            text.push(*byte as char)?;
        }
    }
    Ok(())
}

fn show_kind(text: &mut String, kind: Kind) -> Result<(), Fail> {
    text.push_str(if kind.signed { "i" } else { "u" })?;
    write!(text, "{}", kind.width)?;
    Ok(())
}

// What stands before the operands of a tree, its operator first.
fn show_head(text: &mut String, form: &ExprForm) -> Result<(), Fail> {
    match form {
        ExprForm::Number(value, kind) => {
            write!(text, "{value}")?;
            show_kind(text, *kind)?;
        }
        ExprForm::Name(name) => show_name(text, name)?,
        ExprForm::Element(name, _) => {
            text.push_str("[] ")?;
            show_name(text, name)?;
        }
        ExprForm::Call(name, _) => {
            text.push_str("call ")?;
            show_name(text, name)?;
        }
        ExprForm::Cast(kind, _) => show_kind(text, *kind)?,
        ExprForm::Plus(_) => text.push_str("+")?,
        ExprForm::Unary(UnaryOp::Neg, _) => text.push_str("-")?,
        ExprForm::Unary(UnaryOp::Complement, _) => text.push_str("~")?,
        ExprForm::Unary(UnaryOp::Not, _) => text.push_str("!")?,
        ExprForm::Binary(op, _, _) => text.push_str(symbol_of(*op))?,
        ExprForm::Both(_, _) => text.push_str("&&")?,
        ExprForm::Either(_, _) => text.push_str("||")?,
        ExprForm::Choice(_, _, _) => text.push_str("?")?,
    }
    Ok(())
}

/// The tree with its operators first.
#[cycle(show)]
pub fn show(text: &mut String, tree: &ExprTree) -> Result<(), Fail> {
    write!(text, "{}{{", tree.span.column)?;
    show_head(text, &tree.form)?;
    match &tree.form {
        ExprForm::Number(_, _) | ExprForm::Name(_) => {}
        ExprForm::Element(_, inner)
        | ExprForm::Cast(_, inner)
        | ExprForm::Plus(inner)
        | ExprForm::Unary(_, inner) => show_next(text, inner)?,
        ExprForm::Call(_, arguments) => {
            for argument in arguments.iter() {
                show_next(text, argument)?;
            }
        }
        ExprForm::Binary(_, left, right)
        | ExprForm::Both(left, right)
        | ExprForm::Either(left, right) => {
            show_next(text, left)?;
            show_next(text, right)?;
        }
        ExprForm::Choice(test, yes, no) => {
            show_next(text, test)?;
            show_next(text, yes)?;
            show_next(text, no)?;
        }
    }
    text.push_str("}")?;
    Ok(())
}

#[cycle(show)]
fn show_next(text: &mut String, tree: &ExprTree) -> Result<(), Fail> {
    text.push_str(" ")?;
    show(text, tree)
}

// What may be missing, with a blank before it.
fn show_option(text: &mut String, tree: Option<&ExprTree>) -> Result<(), Fail> {
    match tree {
        Some(tree) => show_next(text, tree),
        None => {
            text.push_str(" -")?;
            Ok(())
        }
    }
}

fn show_ident(text: &mut String, name: &Ident) -> Result<(), Fail> {
    write!(text, " {}{{", name.span.column)?;
    show_name(text, &name.name)?;
    text.push_str("}")?;
    Ok(())
}

fn show_place(text: &mut String, place: &PlaceTree) -> Result<(), Fail> {
    show_ident(text, &place.name)?;
    if let Some(index) = &place.index {
        text.push_str(" [")?;
        show(text, index)?;
        text.push_str("]")?;
    }
    Ok(())
}

fn show_initial(text: &mut String, first: &Initial) -> Result<(), Fail> {
    text.push_str(" =")?;
    match first {
        Initial::One(value) => show_next(text, value)?,
        Initial::List(values) => {
            text.push_str(" (")?;
            for value in values.iter() {
                show_next(text, value)?;
            }
            text.push_str(" )")?;
        }
    }
    Ok(())
}

fn show_declarators(text: &mut String, kind: Kind, list: &[Declarator]) -> Result<(), Fail> {
    show_kind(text, kind)?;
    for declarator in list {
        show_ident(text, &declarator.name)?;
        if let Some(length) = &declarator.length {
            text.push_str(" [")?;
            show(text, length)?;
            text.push_str("]")?;
        }
        if let Some(first) = &declarator.first {
            show_initial(text, first)?;
        }
    }
    Ok(())
}

fn show_label(text: &mut String, label: &CaseLabel) -> Result<(), Fail> {
    write!(text, " {}{{case", label.span.column)?;
    show_option(text, label.value.as_ref())?;
    text.push_str("}")?;
    Ok(())
}

#[cycle(statement)]
fn show_group(text: &mut String, group: &Group) -> Result<(), Fail> {
    text.push_str(" (")?;
    for label in group.labels.iter() {
        show_label(text, label)?;
    }
    text.push_str(" :")?;
    for statement in group.body.iter() {
        show_statement(text, statement)?;
    }
    text.push_str(" )")?;
    Ok(())
}

// What a statement without statements in it is.
fn show_simple(text: &mut String, form: &Form) -> Result<(), Fail> {
    match form {
        Form::Empty => text.push_str("empty")?,
        Form::Local { kind, list } => show_declarators(text, *kind, list)?,
        Form::Assign {
            place,
            operator,
            value,
        } => {
            if let Some(operator) = operator {
                text.push_str(symbol_of(*operator))?;
            }
            text.push_str("=")?;
            show_place(text, place)?;
            show_next(text, value)?;
        }
        Form::Step { place, up } => {
            text.push_str(if *up { "++" } else { "--" })?;
            show_place(text, place)?;
        }
        Form::Call { name, arguments } => {
            text.push_str("call")?;
            show_ident(text, name)?;
            for argument in arguments.iter() {
                show_next(text, argument)?;
            }
        }
        Form::Break => text.push_str("break")?,
        Form::Continue => text.push_str("continue")?,
        Form::Return(value) => {
            text.push_str("return")?;
            show_option(text, value.as_ref())?;
        }
        Form::Assert(test) => {
            text.push_str("assert")?;
            show_next(text, test)?;
        }
        Form::Assume(test) => {
            text.push_str("assume")?;
            show_next(text, test)?;
        }
        _ => {}
    }
    Ok(())
}

#[cycle(statement)]
fn show_statement(text: &mut String, statement: &Statement) -> Result<(), Fail> {
    write!(text, " {}{{", statement.span.column)?;
    match &statement.form {
        Form::Block(list) => {
            text.push_str("block")?;
            for part in list.iter() {
                show_statement(text, part)?;
            }
        }
        Form::Label { name, body } => {
            text.push_str("label")?;
            show_ident(text, name)?;
            show_statement(text, body)?;
        }
        Form::If { arms, otherwise } => {
            text.push_str("if")?;
            for (test, body) in arms.iter() {
                show_next(text, test)?;
                show_statement(text, body)?;
            }
            match otherwise {
                Some(last) => show_statement(text, last)?,
                None => text.push_str(" -")?,
            }
        }
        Form::While { test, body } => {
            text.push_str("while")?;
            show_next(text, test)?;
            show_statement(text, body)?;
        }
        Form::Do { body, test } => {
            text.push_str("do")?;
            show_statement(text, body)?;
            show_next(text, test)?;
        }
        Form::For {
            first,
            test,
            next,
            body,
        } => {
            text.push_str("for")?;
            match first {
                Some(part) => show_statement(text, part)?,
                None => text.push_str(" -")?,
            }
            show_option(text, test.as_ref())?;
            match next {
                Some(part) => show_statement(text, part)?,
                None => text.push_str(" -")?,
            }
            show_statement(text, body)?;
        }
        Form::Switch { value, groups } => {
            text.push_str("switch")?;
            show_next(text, value)?;
            for group in groups.iter() {
                show_group(text, group)?;
            }
        }
        simple => show_simple(text, simple)?,
    }
    text.push_str("}")?;
    Ok(())
}

fn show_parameter(text: &mut String, parameter: &Parameter) -> Result<(), Fail> {
    write!(text, " {}{{", parameter.span.column)?;
    show_kind(text, parameter.kind)?;
    if let Some(name) = &parameter.name {
        show_ident(text, name)?;
    }
    if let Some(length) = &parameter.length {
        text.push_str(" [")?;
        show(text, length)?;
        text.push_str("]")?;
    }
    text.push_str("}")?;
    Ok(())
}

/// An item; the body of a function ends with the column of its closing brace.
pub fn show_item(text: &mut String, item: &Item) -> Result<(), Fail> {
    match item {
        Item::Function {
            span,
            result,
            name,
            parameters,
            body,
        } => {
            write!(text, "{}{{", span.column)?;
            match result {
                Some(kind) => show_kind(text, *kind)?,
                None => text.push_str("void")?,
            }
            show_ident(text, name)?;
            text.push_str(" (")?;
            for parameter in parameters.iter() {
                show_parameter(text, parameter)?;
            }
            text.push_str(" )")?;
            if let Some(body) = body {
                for statement in body.statements.iter() {
                    show_statement(text, statement)?;
                }
                write!(text, " {}", body.close.column)?;
            }
        }
        Item::Variables { span, kind, list } => {
            write!(text, "{}{{", span.column)?;
            show_declarators(text, *kind, list)?;
        }
        Item::Constants { span, list } => {
            write!(text, "{}{{enum", span.column)?;
            for (name, value) in list.iter() {
                show_ident(text, name)?;
                show_option(text, value.as_ref())?;
            }
        }
    }
    text.push_str("}")?;
    Ok(())
}
