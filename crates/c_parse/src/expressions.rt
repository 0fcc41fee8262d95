// Reading expressions from tokens (ISO/IEC 9899:2011, 6.5).
ghost use Rattle.std.specs.Prelude.{◌≡◌, ◌<◌, length, IfOk};
ghost use Rattle.c_parse.specs.Trees.{tree, prefixed, joined};
ghost use Rattle.c_parse.specs.Gives.{Gives};
ghost use Rattle.c_parse.specs.Choices.{closed};
ghost use Rattle.c_parse.specs.Reading.{arguments_at, after_name, after_open, after_prefix, operand_at, operators_at, level_by, choice_by, expr_in, whole_at};

use crate::cursor::{
    expect_symbol, first_infix, first_span, is_same, level_of, prefix_of, starts_with,
    starts_with_type, tail, take_type,
};
use crate::expr::{ExprForm, ExprTree};
use crate::operator::{Infix, Prefix};
use crate::sign::{Sign, Symbol, Terminal};
use crate::stop::Stop;
use containers::{Boxed, Vector};
use fq_core::{Name, Span};
use std::alloc::{AllocError, Global};

// A tree in a box of its own.
fn boxed_tree(alloc: Global, span: Span, form: ExprForm) -> Result<Boxed<ExprTree>, AllocError>
    ensures { IfOk result (λ x. x ≡ tree span form) }
{
    Boxed::new(alloc, ExprTree { span, form })
}

fn prefixed(op: Prefix, operand: Boxed<ExprTree>) -> ExprForm
    ensures { result ≡ prefixed op operand }
{
    match op {
        Prefix::Plus => ExprForm::Plus(operand),
        Prefix::Unary(op) => ExprForm::Unary(op, operand),
    }
}

fn joined(op: Infix, left: Boxed<ExprTree>, right: Boxed<ExprTree>) -> ExprForm
    ensures { result ≡ joined op left right }
{
    match op {
        Infix::Binary(op) => ExprForm::Binary(op, left, right),
        Infix::Both => ExprForm::Both(left, right),
        Infix::Either => ExprForm::Either(left, right),
    }
}

// Arguments up to the closing parenthesis, of which there is at least one.
#[cycle(expr)]
pub fn arguments(
    alloc: Global,
    tokens: &[Terminal],
) -> Result<(Vector<ExprTree>, &[Terminal]), Stop>
    ensures { Gives (λ x. (x.0, x.1.now)) result (arguments_at expr_in (length tokens.now) tokens.now) }
{
    let mut list = Vector::new(alloc);
    let mut rest = tokens;
    'arguments: loop {
        let (argument, after) = expression_at(alloc, 0, rest)?;
        list.push(argument.into_inner())?;
        if !starts_with(after, Symbol::Comma) {
            let after = expect_symbol(after, Symbol::Close)?;
            return Ok((list, after));
        }
        rest = tail(after);
    }
}

// What follows a name.
#[cycle(expr)]
#[tactic(auto, unfolding(crate::specs::Reading::after_name))]
fn operand_of_name(
    alloc: Global,
    span: Span,
    name: Name,
    tokens: &[Terminal],
) -> Result<(Boxed<ExprTree>, &[Terminal]), Stop>
    ensures { Gives (λ x. (x.0, x.1.now)) result (after_name expr_in span name tokens.now) }
{
    if starts_with(tokens, Symbol::OpenIndex) {
        let (index, rest) = expression_at(alloc, 0, tail(tokens))?;
        let rest = expect_symbol(rest, Symbol::CloseIndex)?;
        return Ok((
            boxed_tree(alloc, span, ExprForm::Element(name, index))?,
            rest,
        ));
    }
    if !starts_with(tokens, Symbol::Open) {
        return Ok((boxed_tree(alloc, span, ExprForm::Name(name))?, tokens));
    }
    let rest = tail(tokens);
    if starts_with(rest, Symbol::Close) {
        let call = ExprForm::Call(name, Vector::new(alloc));
        return Ok((boxed_tree(alloc, span, call)?, tail(rest)));
    }
    let (list, rest) = arguments(alloc, rest)?;
    Ok((boxed_tree(alloc, span, ExprForm::Call(name, list))?, rest))
}

// What follows an opening parenthesis.
#[cycle(expr)]
#[tactic(auto, unfolding(crate::specs::Reading::after_open))]
fn parenthesized(
    alloc: Global,
    span: Span,
    tokens: &[Terminal],
) -> Result<(Boxed<ExprTree>, &[Terminal]), Stop>
    ensures { Gives (λ x. (x.0, x.1.now)) result (after_open expr_in span tokens.now) }
{
    if starts_with_type(tokens) {
        let (kind, rest) = take_type(alloc, tokens)?;
        let rest = expect_symbol(rest, Symbol::Close)?;
        let (operand, rest) = expression_at(alloc, 11, rest)?;
        Ok((
            boxed_tree(alloc, span, ExprForm::Cast(kind, operand))?,
            rest,
        ))
    } else {
        let (inner, rest) = expression_at(alloc, 0, tokens)?;
        let rest = expect_symbol(rest, Symbol::Close)?;
        Ok((inner, rest))
    }
}

// What follows an operator before its operand.
#[cycle(expr)]
fn prefix(
    alloc: Global,
    span: Span,
    op: Option<Prefix>,
    tokens: &[Terminal],
) -> Result<(Boxed<ExprTree>, &[Terminal]), Stop>
    ensures { Gives (λ x. (x.0, x.1.now)) result (after_prefix expr_in op span tokens.now) }
{
    let Some(op) = op else {
        return Err(Stop::Syntax);
    };
    let (operand, rest) = expression_at(alloc, 11, tokens)?;
    Ok((boxed_tree(alloc, span, prefixed(op, operand))?, rest))
}

// An operand.
#[cycle(expr)]
#[tactic(auto, unfolding(crate::specs::Reading::operand_at))]
fn operand(alloc: Global, tokens: &[Terminal]) -> Result<(Boxed<ExprTree>, &[Terminal]), Stop>
    ensures { Gives (λ x. (x.0, x.1.now)) result (operand_at expr_in tokens.now) }
{
    let [first, rest @ ..] = tokens else {
        return Err(Stop::Syntax);
    };
    let span = first.span;
    match &first.sign {
        Sign::Number(value, kind) => {
            Ok((
                boxed_tree(alloc, span, ExprForm::Number(*value, *kind))?,
                rest,
            ))
        }
        Sign::Name(name) => {
            let name = name.clone()?;
            operand_of_name(alloc, span, name, rest)
        }
        Sign::Symbol(symbol) => {
            if is_same(*symbol, Symbol::Open) {
                parenthesized(alloc, span, rest)
            } else {
                prefix(alloc, span, prefix_of(*symbol), rest)
            }
        }
        _ => Err(Stop::Syntax),
    }
}

// An operand at a level: operands with operators of that level or above between them.
#[cycle(expr)]
#[tactic(auto, unfolding(crate::specs::Reading::level_by))]
fn operation(
    alloc: Global,
    level: u8,
    tokens: &[Terminal],
) -> Result<(Boxed<ExprTree>, &[Terminal]), Stop>
    requires { level < 100 }
    ensures { Gives (λ x. (x.0, x.1.now)) result (level_by expr_in level tokens.now) }
{
    let span = first_span(tokens);
    let (mut tree, mut rest) = operand(alloc, tokens)?;
    'operators: while let Some(op) = first_infix(rest) {
        let binds = level_of(op);
        if binds < level {
            break;
        }
        let (right, after) = expression_at(alloc, binds + 1, tail(rest))?;
        tree = boxed_tree(alloc, span, joined(op, tree, right))?;
        rest = after;
    }
    Ok((tree, rest))
}

/// A choice of which the third operand is still to be read.
#[derive(Drop)]
pub struct OpenChoice {
    pub span: Span,
    pub test: Boxed<ExprTree>,
    pub yes: Boxed<ExprTree>,
}

// The choices that lie in one another's third operand, the outermost first, with the last third operand.
fn closed(
    alloc: Global,
    mut outer: Vec<OpenChoice>,
    last: Boxed<ExprTree>,
) -> Result<Boxed<ExprTree>, AllocError>
    ensures { IfOk result (λ t. t ≡ closed outer.items last) }
{
    let mut tree = last;
    'choices: while let Some(OpenChoice { span, test, yes }) = outer.pop() {
        tree = boxed_tree(alloc, span, ExprForm::Choice(test, yes, tree))?;
    }
    Ok(tree)
}

// A choice, or an operand at level 1. Choices in a row, which group to the right, are read by a loop.
#[cycle(expr)]
fn conditional_expression(
    alloc: Global,
    tokens: &[Terminal],
) -> Result<(Boxed<ExprTree>, &[Terminal]), Stop>
    ensures { Gives (λ x. (x.0, x.1.now)) result (choice_by expr_in tokens.now) }
{
    let mut outer = Vec::new(alloc);
    let mut rest = tokens;
    'choices: loop {
        let span = first_span(rest);
        let (test, after) = operation(alloc, 1, rest)?;
        if !starts_with(after, Symbol::Question) {
            return Ok((closed(alloc, outer, test)?, after));
        }
        let (yes, after) = expression_at(alloc, 0, tail(after))?;
        rest = expect_symbol(after, Symbol::Colon)?;
        outer.push(OpenChoice { span, test, yes })?;
    }
}

// An expression at level 0, an operand at a higher level.
#[cycle(expr)]
pub fn expression_at(
    alloc: Global,
    level: u8,
    tokens: &[Terminal],
) -> Result<(Boxed<ExprTree>, &[Terminal]), Stop>
    requires { level < 100 }
    ensures { Gives (λ x. (x.0, x.1.now)) result (expr_in level tokens.now) }
{
    if level == 0 {
        conditional_expression(alloc, tokens)
    } else {
        operation(alloc, level, tokens)
    }
}

// The expression that all the tokens are.
#[tactic(auto, unfolding(crate::specs::Reading::whole_at))]
pub fn whole_expression(alloc: Global, tokens: &[Terminal]) -> Result<Boxed<ExprTree>, Stop>
    ensures { Gives (λ x. x) result (whole_at tokens.now) }
{
    let (tree, rest) = expression_at(alloc, 0, tokens)?;
    match rest {
        [] => Ok(tree),
        _ => Err(Stop::Syntax),
    }
}
