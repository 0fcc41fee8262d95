// Reading statements from tokens (ISO/IEC 9899:2011, 6.8).
ghost use Rattle.std.specs.Prelude.{◌≡◌, ◌≤◌, ◌<◌, false, length, IfOk};
ghost use Rattle.c_parse.specs.Gives.{Gives};
ghost use Rattle.c_parse.specs.OpenStatements.{Leads, opens, progress_at};
ghost use Rattle.c_parse.specs.ReadingStatements.{one_at, ends_body, body_at, groups_at, switch_at, return_at, assert_at, assume_at, statement_of_symbol, statement_by, statement_in};

use crate::cursor::{expect_symbol, starts_with, tail};
use crate::declarations::{boxed_statement, local, starts_with_local};
use crate::open_statement::{OpenStatement, Progress, labelled, open_form, opens, resumed};
use crate::sign::{Sign, Symbol, Terminal};
use crate::simple::{labels, optional, starts_with_label, stepped, test};
use crate::statement::{Form, Group, Statement};
use crate::stop::Stop;
use containers::{Boxed, Vector};
use fq_core::Span;
use std::alloc::Global;

// What follows `return`.
#[tactic(auto, unfolding(crate::specs::ReadingStatements::return_at))]
fn returned(
    alloc: Global,
    span: Span,
    tokens: &[Terminal],
) -> Result<(Boxed<Statement>, &[Terminal]), Stop>
    ensures { Gives (λ x. (x.0, x.1.now)) result (return_at span tokens.now) }
{
    let (value, rest) = optional(alloc, tokens)?;
    let rest = expect_symbol(rest, Symbol::Semicolon)?;
    Ok((boxed_statement(alloc, span, Form::Return(value))?, rest))
}

// What follows `assert`.
#[tactic(auto, unfolding(crate::specs::ReadingStatements::assert_at))]
fn asserted(
    alloc: Global,
    span: Span,
    tokens: &[Terminal],
) -> Result<(Boxed<Statement>, &[Terminal]), Stop>
    ensures { Gives (λ x. (x.0, x.1.now)) result (assert_at span tokens.now) }
{
    let (tree, rest) = test(alloc, tokens)?;
    let rest = expect_symbol(rest, Symbol::Semicolon)?;
    Ok((
        boxed_statement(alloc, span, Form::Assert(tree.into_inner()))?,
        rest,
    ))
}

// What follows `assume`.
#[tactic(auto, unfolding(crate::specs::ReadingStatements::assume_at))]
fn assumed(
    alloc: Global,
    span: Span,
    tokens: &[Terminal],
) -> Result<(Boxed<Statement>, &[Terminal]), Stop>
    ensures { Gives (λ x. (x.0, x.1.now)) result (assume_at span tokens.now) }
{
    let (tree, rest) = test(alloc, tokens)?;
    let rest = expect_symbol(rest, Symbol::Semicolon)?;
    Ok((
        boxed_statement(alloc, span, Form::Assume(tree.into_inner()))?,
        rest,
    ))
}

// Whether a body ends before these tokens.
fn ends_body(tokens: &[Terminal]) -> bool
    ensures { result ≡ ends_body tokens.now }
{
    starts_with(tokens, Symbol::CloseBrace) || starts_with_label(tokens)
}

// A declaration or a statement.
#[cycle(statement)]
fn one(alloc: Global, tokens: &[Terminal]) -> Result<(Boxed<Statement>, &[Terminal]), Stop>
    ensures { Gives (λ x. (x.0, x.1.now)) result (one_at statement_in tokens.now) }
{
    if starts_with_local(tokens) {
        local(alloc, tokens)
    } else {
        statement(alloc, tokens)
    }
}

// Declarations and statements up to a closing brace, or a label of a `switch`.
#[cycle(statement)]
pub fn body(alloc: Global, tokens: &[Terminal]) -> Result<(Vector<Statement>, &[Terminal]), Stop>
    ensures { Gives (λ x. (x.0, x.1.now)) result (body_at statement_in (length tokens.now) tokens.now) }
{
    let mut list = Vector::new(alloc);
    let mut rest = tokens;
    'statements: loop {
        if ends_body(rest) {
            return Ok((list, rest));
        }
        let (next, after) = one(alloc, rest)?;
        list.push(next.into_inner())?;
        rest = after;
    }
}

// The groups of a `switch`, up to the closing brace.
#[cycle(statement)]
fn groups(alloc: Global, tokens: &[Terminal]) -> Result<(Vector<Group>, &[Terminal]), Stop>
    ensures { Gives (λ x. (x.0, x.1.now)) result (groups_at statement_in (length tokens.now) tokens.now) }
{
    let mut list = Vector::new(alloc);
    let mut rest = tokens;
    'groups: loop {
        if starts_with(rest, Symbol::CloseBrace) {
            return Ok((list, tail(rest)));
        }
        let (labels, after) = labels(alloc, rest)?;
        let (body, after) = body(alloc, after)?;
        list.push(Group { labels, body })?;
        rest = after;
    }
}

// What follows `switch`.
#[cycle(statement)]
#[tactic(auto, unfolding(crate::specs::ReadingStatements::switch_at))]
fn switched(
    alloc: Global,
    span: Span,
    tokens: &[Terminal],
) -> Result<(Boxed<Statement>, &[Terminal]), Stop>
    ensures { Gives (λ x. (x.0, x.1.now)) result (switch_at statement_in span tokens.now) }
{
    let (value, rest) = test(alloc, tokens)?;
    let rest = expect_symbol(rest, Symbol::OpenBrace)?;
    let (groups, rest) = groups(alloc, rest)?;
    let value = value.into_inner();
    Ok((
        boxed_statement(alloc, span, Form::Switch { value, groups })?,
        rest,
    ))
}

// What follows a symbol that opens no statement.
#[cycle(statement)]
fn closed_statement(
    alloc: Global,
    span: Span,
    symbol: Symbol,
    tokens: &[Terminal],
) -> Result<(Boxed<Statement>, &[Terminal]), Stop>
    requires { opens symbol ≡ false }
    ensures { Gives (λ x. (x.0, x.1.now)) result (statement_of_symbol statement_in symbol span tokens.now) }
{
    match symbol {
        Symbol::OpenBrace => {
            let (list, rest) = body(alloc, tokens)?;
            let rest = expect_symbol(rest, Symbol::CloseBrace)?;
            Ok((boxed_statement(alloc, span, Form::Block(list))?, rest))
        }
        Symbol::Semicolon => Ok((boxed_statement(alloc, span, Form::Empty)?, tokens)),
        Symbol::Switch => switched(alloc, span, tokens),
        Symbol::Break => {
            let rest = expect_symbol(tokens, Symbol::Semicolon)?;
            Ok((boxed_statement(alloc, span, Form::Break)?, rest))
        }
        Symbol::Continue => {
            let rest = expect_symbol(tokens, Symbol::Semicolon)?;
            Ok((boxed_statement(alloc, span, Form::Continue)?, rest))
        }
        Symbol::Return => returned(alloc, span, tokens),
        Symbol::Assert => asserted(alloc, span, tokens),
        Symbol::Assume => assumed(alloc, span, tokens),
        _ => {
            let (step, rest) = stepped(alloc, span, symbol, tokens)?;
            let rest = expect_symbol(rest, Symbol::Semicolon)?;
            Ok((step, rest))
        }
    }
}

// What follows a symbol, up to a part of the statement or to its end.
#[cycle(statement)]
fn by_symbol(
    alloc: Global,
    span: Span,
    symbol: Symbol,
    tokens: &[Terminal],
) -> Result<(Progress, &[Terminal]), Stop>
    ensures same { Leads (λ x. progress_at statement_in x.0 x.1.now) result (statement_of_symbol statement_in symbol span tokens.now) }
    ensures shorter { IfOk result (λ x. length x.1.now ≤ length tokens.now) }
{
    if opens(symbol) {
        let (form, rest) = open_form(alloc, symbol, tokens)?;
        let part = OpenStatement { span, form };
        return Ok((Progress::Part(part), rest));
    }
    let (whole, rest) = closed_statement(alloc, span, symbol, tokens)?;
    Ok((Progress::Whole(whole), rest))
}

// A statement, up to a part of it or to its end.
#[cycle(statement)]
#[tactic(auto, unfolding(crate::specs::ReadingStatements::statement_by))]
fn statement_front(alloc: Global, tokens: &[Terminal]) -> Result<(Progress, &[Terminal]), Stop>
    ensures same { Leads (λ x. progress_at statement_in x.0 x.1.now) result (statement_by statement_in tokens.now) }
    ensures shorter { IfOk result (λ x. length x.1.now < length tokens.now) }
{
    let [first, rest @ ..] = tokens else {
        return Err(Stop::Syntax);
    };
    match &first.sign {
        Sign::Name(name) => {
            let name = name.clone()?;
            labelled(alloc, first.span, name, rest)
        }
        Sign::Symbol(symbol) => by_symbol(alloc, first.span, *symbol, rest),
        _ => Err(Stop::Syntax),
    }
}

// A statement. Those that lie in one another with no brace between them are read by a loop.
#[cycle(statement)]
fn statement(alloc: Global, tokens: &[Terminal]) -> Result<(Boxed<Statement>, &[Terminal]), Stop>
    ensures { Gives (λ x. (x.0, x.1.now)) result (statement_in tokens.now) }
{
    let mut outer = Vec::new(alloc);
    let (mut progress, mut rest) = statement_front(alloc, tokens)?;
    'statements: loop {
        match progress {
            Progress::Part(part) => {
                outer.push(part)?;
                (progress, rest) = statement_front(alloc, rest)?;
            }
            Progress::Whole(whole) => match outer.pop() {
                None => return Ok((whole, rest)),
                Some(last) => {
                    (progress, rest) = resumed(alloc, last, whole, rest)?;
                }
            },
        }
    }
}
