// Reading statements without statements in them (ISO/IEC 9899:2011, 6.8.3 and 6.5.16).
ghost use Rattle.std.specs.Prelude.{◌≡◌, length};
ghost use Rattle.c_parse.specs.Gives.{Gives};
ghost use Rattle.c_parse.specs.StatementTrees.{assigned_by, step_by};
ghost use Rattle.c_parse.specs.ReadingStatements.{symbol_at, changed_by, changed_at, named_at, stepped_at, simple_at, test_at, optional_at, begin_at, next_at, starts_label, label_at, labels_at};

use crate::cursor::{expect_symbol, first_span, starts_with, tail};
use crate::declarations::{
    boxed_statement, bracketed, first_expression, first_name, local, starts_with_local,
};
use crate::expr::{ExprTree, Ident};
use crate::expressions::arguments;
use crate::sign::{Sign, Symbol, Terminal};
use crate::statement::{CaseLabel, Form, PlaceTree, Statement};
use crate::stop::Stop;
use c_values::BinaryOp;
use containers::{Boxed, Vector};
use fq_core::{Name, Span};
use std::alloc::Global;

// The operator in an assignment by a symbol, if it has one (6.5.16).
fn assigned_by(symbol: Symbol) -> Option<Option<BinaryOp>>
    ensures { result ≡ assigned_by symbol }
{
    match symbol {
        Symbol::Assign => Some(None),
        Symbol::MulAssign => Some(Some(BinaryOp::Mul)),
        Symbol::DivAssign => Some(Some(BinaryOp::Div)),
        Symbol::RemAssign => Some(Some(BinaryOp::Rem)),
        Symbol::AddAssign => Some(Some(BinaryOp::Add)),
        Symbol::SubAssign => Some(Some(BinaryOp::Sub)),
        Symbol::ShlAssign => Some(Some(BinaryOp::Shl)),
        Symbol::ShrAssign => Some(Some(BinaryOp::Shr)),
        Symbol::AndAssign => Some(Some(BinaryOp::And)),
        Symbol::XorAssign => Some(Some(BinaryOp::Xor)),
        Symbol::OrAssign => Some(Some(BinaryOp::Or)),
        _ => None,
    }
}

// Whether a symbol adds 1 or takes 1 off (6.5.2.4, 6.5.3.1).
fn step_by(symbol: Symbol) -> Option<bool>
    ensures { result ≡ step_by symbol }
{
    match symbol {
        Symbol::Increment => Some(true),
        Symbol::Decrement => Some(false),
        _ => None,
    }
}

fn first_symbol(tokens: &[Terminal]) -> Option<Symbol>
    ensures { result ≡ symbol_at tokens.now }
{
    match tokens {
        [] => None,
        [first, ..] => match &first.sign {
            Sign::Symbol(symbol) => Some(*symbol),
            _ => None,
        },
    }
}

// What is done with a place, by the symbol behind it.
fn changed_by(
    alloc: Global,
    step: Option<bool>,
    how: Option<Option<BinaryOp>>,
    span: Span,
    place: PlaceTree,
    tokens: &[Terminal],
) -> Result<(Boxed<Statement>, &[Terminal]), Stop>
    ensures { Gives (λ x. (x.0, x.1.now)) result (changed_by step how span place tokens.now) }
{
    if let Some(up) = step {
        return Ok((
            boxed_statement(alloc, span, Form::Step { place, up })?,
            tokens,
        ));
    }
    let Some(operator) = how else {
        return Err(Stop::Syntax);
    };
    let (value, rest) = first_expression(alloc, tokens)?;
    let form = Form::Assign {
        place,
        operator,
        value: value.into_inner(),
    };
    Ok((boxed_statement(alloc, span, form)?, rest))
}

#[tactic(auto, unfolding(crate::specs::ReadingStatements::changed_at))]
fn changed(
    alloc: Global,
    span: Span,
    place: PlaceTree,
    tokens: &[Terminal],
) -> Result<(Boxed<Statement>, &[Terminal]), Stop>
    ensures { Gives (λ x. (x.0, x.1.now)) result (changed_at span place tokens.now) }
{
    let Some(symbol) = first_symbol(tokens) else {
        return Err(Stop::Syntax);
    };
    changed_by(
        alloc,
        step_by(symbol),
        assigned_by(symbol),
        span,
        place,
        tail(tokens),
    )
}

// What follows a name that is no label: a call, an assignment or a step.
#[tactic(auto, unfolding(crate::specs::ReadingStatements::named_at))]
pub fn statement_of_name(
    alloc: Global,
    span: Span,
    name: Name,
    tokens: &[Terminal],
) -> Result<(Boxed<Statement>, &[Terminal]), Stop>
    ensures { Gives (λ x. (x.0, x.1.now)) result (named_at span name tokens.now) }
{
    let name = Ident { name, span };
    if !starts_with(tokens, Symbol::Open) {
        let (index, rest) = bracketed(alloc, tokens)?;
        return changed(alloc, span, PlaceTree { name, index }, rest);
    }
    let rest = tail(tokens);
    if starts_with(rest, Symbol::Close) {
        let arguments = Vector::new(alloc);
        let form = Form::Call { name, arguments };
        return Ok((boxed_statement(alloc, span, form)?, tail(rest)));
    }
    let (arguments, rest) = arguments(alloc, rest)?;
    let form = Form::Call { name, arguments };
    Ok((boxed_statement(alloc, span, form)?, rest))
}

// What follows the symbol of a step.
#[tactic(auto, unfolding(crate::specs::ReadingStatements::stepped_at))]
pub fn stepped(
    alloc: Global,
    span: Span,
    symbol: Symbol,
    tokens: &[Terminal],
) -> Result<(Boxed<Statement>, &[Terminal]), Stop>
    ensures { Gives (λ x. (x.0, x.1.now)) result (stepped_at span symbol tokens.now) }
{
    let Some(up) = step_by(symbol) else {
        return Err(Stop::Syntax);
    };
    let at = first_span(tokens);
    let name = first_name(tokens)?;
    let (index, rest) = bracketed(alloc, tail(tokens))?;
    let name = Ident { name, span: at };
    let place = PlaceTree { name, index };
    Ok((
        boxed_statement(alloc, span, Form::Step { place, up })?,
        rest,
    ))
}

#[tactic(auto, unfolding(crate::specs::ReadingStatements::simple_at))]
fn simple(alloc: Global, tokens: &[Terminal]) -> Result<(Boxed<Statement>, &[Terminal]), Stop>
    ensures { Gives (λ x. (x.0, x.1.now)) result (simple_at tokens.now) }
{
    let [first, rest @ ..] = tokens else {
        return Err(Stop::Syntax);
    };
    let span = first.span;
    match &first.sign {
        Sign::Name(name) => {
            let name = name.clone()?;
            statement_of_name(alloc, span, name, rest)
        }
        Sign::Symbol(symbol) => stepped(alloc, span, *symbol, rest),
        _ => Err(Stop::Syntax),
    }
}

// A test in parentheses.
#[tactic(auto, unfolding(crate::specs::ReadingStatements::test_at))]
pub fn test(alloc: Global, tokens: &[Terminal]) -> Result<(Boxed<ExprTree>, &[Terminal]), Stop>
    ensures { Gives (λ x. (x.0, x.1.now)) result (test_at tokens.now) }
{
    let rest = expect_symbol(tokens, Symbol::Open)?;
    let (tree, rest) = first_expression(alloc, rest)?;
    let rest = expect_symbol(rest, Symbol::Close)?;
    Ok((tree, rest))
}

// An expression, or nothing before a semicolon.
#[tactic(auto, unfolding(crate::specs::ReadingStatements::optional_at))]
pub fn optional(alloc: Global, tokens: &[Terminal]) -> Result<(Option<ExprTree>, &[Terminal]), Stop>
    ensures { Gives (λ x. (x.0, x.1.now)) result (optional_at tokens.now) }
{
    if starts_with(tokens, Symbol::Semicolon) {
        return Ok((None, tokens));
    }
    let (tree, rest) = first_expression(alloc, tokens)?;
    Ok((Some(tree.into_inner()), rest))
}

// What a `for` begins with.
#[tactic(auto, unfolding(crate::specs::ReadingStatements::begin_at))]
pub fn begin(
    alloc: Global,
    tokens: &[Terminal],
) -> Result<(Option<Boxed<Statement>>, &[Terminal]), Stop>
    ensures { Gives (λ x. (x.0, x.1.now)) result (begin_at tokens.now) }
{
    if starts_with(tokens, Symbol::Semicolon) {
        return Ok((None, tail(tokens)));
    }
    if starts_with_local(tokens) {
        let (first, rest) = local(alloc, tokens)?;
        return Ok((Some(first), rest));
    }
    let (first, rest) = simple(alloc, tokens)?;
    let rest = expect_symbol(rest, Symbol::Semicolon)?;
    Ok((Some(first), rest))
}

// What a `for` does behind each turn.
#[tactic(auto, unfolding(crate::specs::ReadingStatements::next_at))]
pub fn next(
    alloc: Global,
    tokens: &[Terminal],
) -> Result<(Option<Boxed<Statement>>, &[Terminal]), Stop>
    ensures { Gives (λ x. (x.0, x.1.now)) result (next_at tokens.now) }
{
    if starts_with(tokens, Symbol::Close) {
        return Ok((None, tokens));
    }
    let (next, rest) = simple(alloc, tokens)?;
    Ok((Some(next), rest))
}

pub fn starts_with_label(tokens: &[Terminal]) -> bool
    ensures { result ≡ starts_label tokens.now }
{
    starts_with(tokens, Symbol::Case) || starts_with(tokens, Symbol::Default)
}

#[tactic(auto, unfolding(crate::specs::ReadingStatements::label_at))]
fn label(alloc: Global, tokens: &[Terminal]) -> Result<(CaseLabel, &[Terminal]), Stop>
    ensures { Gives (λ x. (x.0, x.1.now)) result (label_at tokens.now) }
{
    let span = first_span(tokens);
    if starts_with(tokens, Symbol::Case) {
        let (value, rest) = first_expression(alloc, tail(tokens))?;
        let rest = expect_symbol(rest, Symbol::Colon)?;
        let value = Some(value.into_inner());
        return Ok((CaseLabel { span, value }, rest));
    }
    let rest = expect_symbol(tokens, Symbol::Default)?;
    let rest = expect_symbol(rest, Symbol::Colon)?;
    Ok((CaseLabel { span, value: None }, rest))
}

// The labels in a row.
pub fn labels(alloc: Global, tokens: &[Terminal]) -> Result<(Vector<CaseLabel>, &[Terminal]), Stop>
    ensures { Gives (λ x. (x.0, x.1.now)) result (labels_at (length tokens.now) tokens.now) }
{
    let mut list = Vector::new(alloc);
    let mut rest = tokens;
    'labels: loop {
        let (next, after) = label(alloc, rest)?;
        list.push(next)?;
        if !starts_with_label(after) {
            return Ok((list, after));
        }
        rest = after;
    }
}
